//! A machine takes an overhead frame; with all of them it runs.

ghost use Rattle.std.specs.Prelude.{◌≡◌, IfOk};
ghost use Rattle.esx_changes.specs.Planned.{Plans};
ghost use Rattle.esx_plans.specs.plan.Starting.{started, start_changes, start_plan};

use esx_changes::Plan;
use esx_events::{Answer, Refusal};
use esx_tables::{Change, Facts, Record, SiteTables, VmPart, VmTable};
use esx_types::{FrameRow, VmId, VmState};
use std::alloc::{AllocError, Global};

fn started(row: &VmTable, frame: u32) -> Answer
    ensures { result ≡ started row.now frame }
{
    let overhead = row.spec().overhead;
    let held = row.overhead().len() as u32 + 1;
    Answer::Started {
        running: overhead <= held,
        frame,
        held,
        overhead,
    }
}

fn start_changes(
    alloc: Global,
    vm: VmId,
    row: &VmTable,
    frame: u32,
) -> Result<Vec<Change>, AllocError>
    ensures { IfOk result (λ changes. changes.items ≡ start_changes vm row.now frame) }
{
    let facts = Facts {
        state: if row.overhead().len() + 1 < row.spec().overhead as usize {
            VmState::Starting
        } else {
            VmState::Running
        },
        ..row.facts()
    };
    Ok(vec![in alloc;
        Change::FrameAt {
            frame,
            row: FrameRow::Overhead
        },
        Change::OfVm {
            vm,
            part: VmPart::OverheadTop { frame: Some(frame) }
        },
        Change::OfVm {
            vm,
            part: VmPart::Facts { facts }
        },
    ]?)
}

/// A machine takes the least frame that is free.
#[tactic(auto, unfolding(crate::specs::plan::Starting::start_plan))]
pub fn plan_start(tables: &SiteTables, alloc: Global, vm: VmId) -> Result<Plan, Refusal>
    ensures { Plans result (start_plan tables.now vm) }
{
    let Some(row) = tables.vm(vm) else {
        return Err(Refusal::NoVm);
    };
    match row.facts().state {
        VmState::Running => return Err(Refusal::NotNeeded),
        VmState::Stopping => return Err(Refusal::NotRunning),
        VmState::Starting => {}
    }
    let Some(frame) = tables.least_frame() else {
        return Err(Refusal::Short);
    };
    let changes = start_changes(alloc, vm, row, frame)?;
    Ok(Plan {
        answer: started(row, frame),
        changes: Record::of(changes),
    })
}
