//! What each machine holds before a rebalance, and gives with it.

ghost use Rattle.std.specs.Prelude.{◌≡◌, map, IfOk};
ghost use Rattle.esx_model.specs.declared.scene.Scene.{Scene};
ghost use Rattle.esx_model.specs.Site.{vm_at};
ghost use Rattle.esx_machine.specs.Machine.{Shows};
ghost use Rattle.esx_story.specs.Waits.{kept, left};
ghost use Rattle.esx_walk.specs.Holding.{held_before, least, with_rows, given, given_after};

use crate::lives::number_at;
use esx_events::Event;
use esx_formulas::Row;
use esx_machine::Machine;
use esx_types::{Level, Rows, VM_NUMBERS, VmId};
use std::alloc::AllocError;

/// The least that a machine asked for, 0 of none.
fn least_of(machine: &Machine, vm: VmId) -> u32
    ensures { (scene : Scene) → Shows machine.now scene → result ≡ least (vm_at scene.site vm) }
{
    match machine.spec(vm) {
        Some(spec) => spec.min,
        None => 0,
    }
}

/// Puts what the machines of some rows hold at their numbers.
fn hold_rows(machine: &Machine, held: &mut Rows<u32>, rows: &[Row])
    ensures { (scene : Scene) → Shows machine.now scene → held.new ≡ with_rows scene.site held.old rows.now }
{
    for (_at, row) in rows.iter().enumerate() {
        let pages = row.pages.max(least_of(machine, row.vm));
        held.set(usize::from(row.vm.number()), pages);
    }
}

/// What the machine under each number holds. It looks at each machine.
fn held_of_all(machine: &Machine) -> Result<Rows<u32>, AllocError>
    ensures { (scene : Scene) → Shows machine.now scene → IfOk result (λ held. held ≡ map kept scene.site.vms) }
{
    let rows = machine.rows()?;
    let mut held = Rows::from_vec(vec![in *rows.allocator(); 0u32; VM_NUMBERS]?);
    hold_rows(machine, &mut held, rows.as_slice());
    Ok(held)
}

/// What the machine under each number holds, where an event is to ask for frames.
pub fn held_before(machine: &Machine, event: &Event) -> Result<Option<Rows<u32>>, AllocError>
    ensures { (scene : Scene) → Shows machine.now scene → IfOk result (λ held. held ≡ held_before scene event.now) }
{
    if !matches!(event, Event::Rebalance) || machine.level() == Level::High {
        return Ok(None);
    }
    let held = held_of_all(machine)?;
    Ok(Some(held))
}

/// The target of the machine under a number, 0 of none.
fn target_of(machine: &Machine, number: usize) -> u32
    ensures { (scene : Scene) → Shows machine.now scene → result ≡ left (vm_at scene.site number) }
{
    if number >= VM_NUMBERS {
        return 0;
    }
    match machine.target(VmId::new(number as u8)) {
        Some(target) => target,
        None => 0,
    }
}

/// Takes the target of each machine off what it held.
fn give(machine: &Machine, held: &mut Rows<u32>)
    ensures { (scene : Scene) → Shows machine.now scene → held.new ≡ given scene.site held.old }
{
    for number in 0..held.len() {
        let target = target_of(machine, number);
        let left = number_at(held, number).saturating_sub(target);
        held.set(number, left);
    }
}

/// What each machine gave that held so much and has its target now.
pub fn given_after(machine: &Machine, held: Option<Rows<u32>>) -> Option<Rows<u32>>
    ensures { (scene : Scene) → Shows machine.now scene → result ≡ given_after scene.site held }
{
    match held {
        None => None,
        Some(mut held) => {
            give(machine, &mut held);
            Some(held)
        }
    }
}
