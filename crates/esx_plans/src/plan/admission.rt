//! A machine comes, under the reserves.

ghost use Rattle.std.specs.Prelude.{◌≡◌, length};
ghost use Rattle.esx_types.specs.declared.config.TheConstants.{VM_NUMBERS};
ghost use Rattle.esx_changes.specs.Planned.{Plans};
ghost use Rattle.esx_plans.specs.plan.Admission.{admit_plan};

use esx_changes::Plan;
use esx_events::{Answer, Boxed, Refusal, Reserves};
use esx_tables::{Change, Record, SiteTables, VmTable};
use esx_types::{Config, VmId, VmSpec};
use std::alloc::Global;

/// A machine is admitted where no machine has its number, and where every machine's memory and overhead
/// fit the frames, and what each may have above its least memory the slots.
#[tactic(auto, unfolding(crate::specs::plan::Admission::admit_plan))]
pub fn plan_admit(
    tables: &SiteTables,
    alloc: Global,
    config: &Config,
    vm: VmId,
    spec: VmSpec,
) -> Result<Plan, Refusal>
    requires { length tables.now.vms ≡ VM_NUMBERS }
    ensures { Plans result (admit_plan config.now tables.now vm spec) }
{
    if let Some(_there) = tables.vm(vm) {
        return Err(Refusal::VmThere);
    }
    if !spec.is_good() {
        return Err(Refusal::BadSpec);
    }
    let memory = tables.memory_reserved() + (spec.min + spec.overhead);
    if config.frames < memory {
        return Err(Refusal::NoMemoryReserve);
    }
    let swap = tables.swap_reserved() + (spec.max - spec.min);
    if config.slots < swap {
        return Err(Refusal::NoSwapReserve);
    }
    let row = VmTable::admitted(alloc, spec)?;
    let changes = vec![in alloc; Change::VmAt { vm, row: Some(row) }]?;
    let reserves = Reserves {
        memory,
        frames: config.frames,
        swap,
        slots: config.slots,
    };
    let reserves = Boxed::new(alloc, reserves)?;
    Ok(Plan {
        answer: Answer::Admitted { reserves },
        changes: Record::of(changes),
    })
}
