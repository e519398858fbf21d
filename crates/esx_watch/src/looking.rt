//! What is told of each machine of a site.

ghost use Rattle.std.specs.Prelude.{◌≡◌, Some, None, option_map, replicate, slice_index_or};
ghost use Rattle.esx_types.specs.declared.config.TheConstants.{VM_NUMBERS};
ghost use Rattle.esx_model.specs.declared.scene.Scene.{Scene};
ghost use Rattle.esx_model.specs.declared.scene.Vm.{Vm};
ghost use Rattle.esx_model.specs.Site.{vm_at};
ghost use Rattle.esx_model.specs.event.Rebalancing.{active};
ghost use Rattle.esx_machine.specs.Machine.{Shows};
ghost use Rattle.esx_figures.specs.Figures.{figures, all_figures};
ghost use Rattle.esx_figures.specs.Sharing.{shared_of};
ghost use Rattle.esx_watch.specs.Logs.{all_shared};
ghost use Rattle.esx_watch.specs.Looking.{IsBlankFrom};

use crate::shifting::shared_at;
use esx_figures::Figures;
use esx_machine::Machine;
use esx_types::{VM_NUMBERS, VmId};
use std::marker::Model;

/// The active share of the memory of a machine that is there.
fn active_of(machine: &Machine, vm: VmId) -> u32
    ensures { (scene : Scene) (v : Vm) → Shows machine.now scene → vm_at scene.site vm ≡ Some v → result ≡ active v }
{
    match machine.of_vm(vm) {
        Ok(activity) => activity.active,
        Err(_) => 0,
    }
}

/// What is told of a machine with so many pages in shared frames, if there is such a machine.
fn figures_of(machine: &Machine, vm: VmId, shared: u32) -> Option<Figures>
    ensures { (scene : Scene) → Shows machine.now scene → shared ≡ shared_of scene.site vm → result ≡ option_map figures (vm_at scene.site vm) }
{
    match machine.standing(vm) {
        Some(standing) => Some(Figures {
            here: standing.resident,
            target: standing.target,
            active: active_of(machine, vm),
            shared,
            lent: standing.lent,
            out: standing.out,
        }),
        None => None,
    }
}

/// What is told of each machine, seen as the list of it by number. It knows a number from which on nothing is told.
#[derive(Drop)]
pub(crate) struct Guests {
    all: [Option<Figures>; VM_NUMBERS],
    numbers: usize,
}

impl Model for Guests {
    ghost use Rattle.std.specs.Prelude.{List, Option};
    ghost use Rattle.esx_figures.specs.declared.figures.Figures.{Figures};
    ghost use Rattle.esx_watch.specs.Looking.{IsBlankFrom};

    ghost Value = { List (Option Figures) };

    ghost view = { λ a. a.all };

    ghost invariant = { λ a. IsBlankFrom a.all a.numbers };
}

impl Guests {
    /// No machine.
    pub(crate) fn nobody() -> Guests
        ensures { result ≡ replicate VM_NUMBERS None }
    {
        Guests {
            all: [None; VM_NUMBERS],
            numbers: 0,
        }
    }

    /// A number from which on nothing is told.
    pub(crate) fn numbers(&self) -> usize
        ensures { IsBlankFrom self.now result }
    {
        self.numbers
    }

    /// What is told of the machine with a number.
    pub(crate) fn at(&self, number: usize) -> Option<Figures>
        ensures { result ≡ slice_index_or self.now number None }
    {
        match self.all.get(number) {
            Some(figures) => *figures,
            None => None,
        }
    }
}

/// What is told of each machine, at its number. It takes no memory.
pub(crate) fn all_figures(machine: &Machine, shared: &[u32]) -> Guests
    ensures { (scene : Scene) → Shows machine.now scene → shared.now ≡ all_shared scene.site → result ≡ all_figures scene.site }
{
    let mut all = [None; VM_NUMBERS];
    let numbers = machine.numbers();
    for number in 0..numbers {
        let count = shared_at(shared, number);
        all[number] = figures_of(machine, VmId::new(number as u8), count);
    }
    Guests { all, numbers }
}
