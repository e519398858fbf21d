//! A machine stops, drops its pages, and gives back its overhead frames.

ghost use Rattle.std.specs.Prelude.{◌≡◌, IfOk};
ghost use Rattle.esx_types.specs.declared.table.FrameRow.TheVariants.{Free};
ghost use Rattle.esx_tables.specs.declared.change.Change.TheVariants.{FrameAt};
ghost use Rattle.esx_changes.specs.Planned.{Plans};
ghost use Rattle.esx_plans.specs.plan.Leaving.{stop_plan, drop_plan, given_back, give_back_changes, gone_plan};

use esx_changes::Plan;
use esx_changes::leaves::page_leaves;
use esx_events::{Answer, Boxed, Refusal};
use esx_tables::{Change, Facts, Record, SiteTables, VmPart, VmTable};
use esx_types::{FrameRow, MapRow, VmId, VmState};
use std::alloc::{AllocError, Global};

/// A machine is to give back what it has; an open period is dropped.
#[tactic(auto, unfolding(crate::specs::plan::Leaving::stop_plan))]
pub fn plan_stop(tables: &SiteTables, alloc: Global, vm: VmId) -> Result<Plan, Refusal>
    ensures { Plans result (stop_plan tables.now vm) }
{
    let Some(row) = tables.vm(vm) else {
        return Err(Refusal::NoVm);
    };
    let facts = row.facts();
    match facts.state {
        VmState::Stopping => return Err(Refusal::NotRunning),
        VmState::Starting | VmState::Running => {}
    }
    let facts = Facts {
        state: VmState::Stopping,
        ..facts
    };
    let period = Boxed::new(alloc, None)?;
    let changes = vec![in alloc;
        Change::OfVm {
            vm,
            part: VmPart::Facts { facts }
        },
        Change::OfVm {
            vm,
            part: VmPart::Period { period }
        },
    ]?;
    Ok(Plan {
        answer: Answer::Done,
        changes: Record::of(changes),
    })
}

/// A machine that stops drops a page that is in a frame or in a slot.
#[tactic(auto, unfolding(crate::specs::plan::Leaving::drop_plan))]
pub fn plan_drop_page(
    tables: &SiteTables,
    alloc: Global,
    vm: VmId,
    page: u32,
) -> Result<Plan, Refusal>
    ensures { Plans result (drop_plan tables.now vm page) }
{
    let Some(row) = tables.vm(vm) else {
        return Err(Refusal::NoVm);
    };
    match row.facts().state {
        VmState::Starting | VmState::Running => return Err(Refusal::NotNeeded),
        VmState::Stopping => {}
    }
    if row.spec().max <= page {
        return Err(Refusal::OutOfRange);
    }
    let old = row.page(page);
    match old {
        MapRow::Untouched | MapRow::Lent { .. } => return Err(Refusal::NotNeeded),
        MapRow::Here { .. } | MapRow::Out { .. } => {}
    }
    let changes = page_leaves(tables, alloc, vm, page, old, MapRow::Untouched)?;
    Ok(Plan {
        answer: Answer::Done,
        changes: Record::of(changes),
    })
}

fn given_back(row: &VmTable) -> Answer
    ensures { result ≡ given_back row.now }
{
    let held = row.overhead().len();
    if 1 < held {
        let held = held as u32 - 1;
        Answer::GivenBack { held }
    } else {
        Answer::Gone
    }
}

fn freed(frame: u32) -> Change
    ensures { result ≡ FrameAt frame Free }
{
    Change::FrameAt {
        frame,
        row: FrameRow::Free,
    }
}

fn give_back_changes(alloc: Global, vm: VmId, row: &VmTable) -> Result<Vec<Change>, AllocError>
    ensures { IfOk result (λ changes. changes.items ≡ give_back_changes vm row.now) }
{
    match row.overhead() {
        [] => Ok(vec![in alloc; Change::VmAt { vm, row: None }]?),
        [frame] => Ok(vec![in alloc; freed(*frame), Change::VmAt { vm, row: None }]?),
        [.., last] => {
            let part = VmPart::OverheadTop { frame: None };
            Ok(vec![in alloc; freed(*last), Change::OfVm { vm, part }]?)
        }
    }
}

/// A machine that stops and has no page left gives back the overhead frame that it took last; with its
/// last one it goes.
#[tactic(auto, unfolding(crate::specs::plan::Leaving::gone_plan))]
pub fn plan_gone(tables: &SiteTables, alloc: Global, vm: VmId) -> Result<Plan, Refusal>
    ensures { Plans result (gone_plan tables.now vm) }
{
    let Some(row) = tables.vm(vm) else {
        return Err(Refusal::NoVm);
    };
    let standing = row.standing();
    match standing.state {
        VmState::Starting | VmState::Running => return Err(Refusal::NotNeeded),
        VmState::Stopping => {}
    }
    if 0 < standing.resident || 0 < standing.out {
        return Err(Refusal::PagesLeft);
    }
    let changes = give_back_changes(alloc, vm, row)?;
    Ok(Plan {
        answer: given_back(row),
        changes: Record::of(changes),
    })
}
