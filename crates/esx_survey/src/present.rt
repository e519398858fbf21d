//! What is told of each machine that stands.

ghost use Rattle.std.specs.Prelude.{◌≡◌, option_map};
ghost use Rattle.esx_model.specs.declared.scene.Scene.{Scene};
ghost use Rattle.esx_model.specs.Site.{vm_at};
ghost use Rattle.esx_machine.specs.Machine.{Shows};
ghost use Rattle.esx_sums.specs.Sums.{present_of, all_present};

use esx_machine::Machine;
use esx_sums::Present;
use esx_types::{VM_NUMBERS, VmId};

/// What is told of a machine, if there is such a machine.
fn present_at(machine: &Machine, vm: VmId) -> Option<Present>
    ensures { (scene : Scene) → Shows machine.now scene → result ≡ option_map present_of (vm_at scene.site vm) }
{
    match machine.standing(vm) {
        Some(standing) => Some(Present {
            here: standing.resident,
            out: standing.out,
            target: standing.target,
        }),
        None => None,
    }
}

/// What is told of each machine that stands, at its number. It takes no memory.
pub fn all_present(machine: &Machine) -> [Option<Present>; VM_NUMBERS]
    ensures { (scene : Scene) → Shows machine.now scene → result ≡ all_present scene.site }
{
    let mut present = [None; VM_NUMBERS];
    for number in 0..machine.numbers() {
        present[number] = present_at(machine, VmId::new(number as u8));
    }
    present
}
