//! What has to hold of a machine before it makes an event: each virtual machine's epoch can rise.

ghost use Rattle.std.specs.Prelude.{◌≡◌, ◌+◌, ◌^◌, ◌<◌, Some, OnOk};
ghost use Rattle.esx_model.specs.declared.book.VmRow.{VmRow};
ghost use Rattle.esx_plans.specs.plan.Balloon.{CanEpochsRise};

use esx_machine::Machine;
use esx_model::VmRow;
use std::process::Abort;
use std::test::Fail;

fn expect_low(rt: &impl Abort, vm: &Option<VmRow>)
    ensures { (v : VmRow) → vm.now ≡ Some v → v.epoch + 1 < 2 ^ 32 }
{
    if let Some(vm) = vm {
        assert!(rt; vm.epoch < u32::MAX);
    }
}

/// Each machine's epoch can rise.
pub fn expect_rise(rt: &impl Abort, machine: &Machine) -> Result<(), Fail>
    ensures { OnOk result (CanEpochsRise machine.now.tables) }
{
    let book = machine.book()?;
    for vm in book.vms.as_slice() {
        expect_low(rt, vm);
    }
    Ok(())
}
