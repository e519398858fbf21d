//! The machines above their targets.

ghost use Rattle.std.specs.Prelude.{◌≡◌, IfOk};
ghost use Rattle.std.specs.List.{All};
ghost use Rattle.esx_model.specs.declared.scene.Scene.{Scene};
ghost use Rattle.esx_model.specs.Site.{vm_at};
ghost use Rattle.esx_machine.specs.Machine.{Shows};
ghost use Rattle.esx_story.specs.Order.{has_own_tax};
ghost use Rattle.esx_order.specs.Order.{IsAbove, IsOrderOf, those_above};

use crate::order::in_order;
use esx_formulas::Row;
use esx_machine::Machine;
use esx_types::VmId;
use std::alloc::{AllocError, Global};

/// A machine with more pages in frames than its target, which is the floor of its row, and whether the tax that holds
/// for it is its own.
#[derive(Clone, Copy, Debug, PartialEq, Eq)]
pub struct Above {
    pub row: Row,
    pub own: bool,
}

/// Whether a machine has a tax of its own.
fn has_own_tax(machine: &Machine, vm: VmId) -> bool
    ensures { (scene : Scene) → Shows machine.now scene → result ≡ has_own_tax (vm_at scene.site vm) }
{
    match machine.spec(vm) {
        Some(spec) => spec.tau.is_some(),
        None => false,
    }
}

/// The machines above their targets, in order of number.
fn those_above(alloc: Global, machine: &Machine) -> Result<Vec<Above>, AllocError>
    requires { (scene : Scene) × Shows machine.now scene }
    ensures value { (scene : Scene) → Shows machine.now scene → IfOk result (λ all. all.items ≡ those_above scene.site) }
    ensures good { IfOk result (λ all. All IsAbove all.items) }
{
    let rows = machine.rows()?;
    let mut all = Vec::new(alloc);
    for row in rows.as_slice() {
        if row.floor < row.pages {
            let own = has_own_tax(machine, row.vm);
            all.push(Above { row: *row, own })?;
        }
    }
    Ok(all)
}

/// The machines above their targets, by their taxed ratios as they are now: the first is to lose the next page. A page
/// that goes raises the ratio of its machine, and so may change the order.
pub fn order_of(alloc: Global, machine: &Machine) -> Result<Vec<Above>, AllocError>
    requires { (scene : Scene) × Shows machine.now scene }
    ensures order { (scene : Scene) → Shows machine.now scene → IfOk result (λ order. IsOrderOf scene.site order.items) }
    ensures good { IfOk result (λ order. All IsAbove order.items) }
{
    let all = those_above(alloc, machine)?;
    in_order(alloc, all.as_slice())
}
