//! Where the pages are that an event may move, and what it moved.

ghost use Rattle.std.specs.Prelude.{◌≡◌, ◌<◌, slice_index_or};
ghost use Rattle.std.specs.Option.{ForSome};
ghost use Rattle.esx_types.specs.declared.config.TheConstants.{VM_NUMBERS};
ghost use Rattle.esx_machine.specs.Machine.{book_in};
ghost use Rattle.esx_course.specs.Looking.{spot_in, spots_in, passed_by, with_epoch};

use esx_events::{Answer, Event};
use esx_machine::Machine;
use esx_passages::telling::{passage, told_spot};
use esx_passages::{Pages, Passages};
use esx_story::Spot;
use esx_types::{VM_NUMBERS, VmId};

/// Where two pages are.
#[derive(Clone, Copy, Debug)]
pub struct Spots {
    pub first: Spot,
    pub second: Spot,
}

/// The epoch of a machine, of those that are kept by number.
fn epoch_at(epochs: &[u32; VM_NUMBERS], vm: VmId) -> u32
    ensures { result ≡ slice_index_or epochs.now vm 0 }
{
    match epochs.get(usize::from(vm.number())) {
        Some(epoch) => *epoch,
        None => 0,
    }
}

/// Where a page is, if one is meant, where its machine is in the epoch that is kept of it.
fn spot_in(machine: &Machine, epochs: &[u32; VM_NUMBERS], page: Option<(VmId, u32)>) -> Spot
    ensures { result ≡ spot_in (book_in machine.now) epochs.now page }
{
    match page {
        Some((vm, page)) => told_spot(epoch_at(epochs, vm), machine.of_page(vm, page)),
        None => Spot::Untouched,
    }
}

/// Where the pages are that an event may move.
pub fn spots_in(machine: &Machine, epochs: &[u32; VM_NUMBERS], pages: &Pages) -> Spots
    ensures { result ≡ spots_in (book_in machine.now) epochs.now pages.now }
{
    Spots {
        first: spot_in(machine, epochs, pages.first),
        second: spot_in(machine, epochs, pages.second),
    }
}

/// What an event moved of these pages, from there and to there.
pub fn passed_by(
    event: &Event,
    answer: &Answer,
    pages: &Pages,
    from: &Spots,
    to: &Spots,
) -> Passages
    ensures { result ≡ passed_by event.now answer.now pages.now from.now to.now }
{
    Passages {
        first: passage(event, answer, pages.first, from.first, to.first),
        second: passage(event, answer, pages.second, from.second, to.second),
    }
}

/// Keeps the epoch of a machine that has another.
pub fn keep_epoch(epochs: &mut [u32; VM_NUMBERS], next: Option<(VmId, u32)>)
    ensures kept { epochs.new ≡ with_epoch epochs.old next }
    ensures within { ForSome next (λ p. p.0 < VM_NUMBERS) }
{
    if let Some((vm, epoch)) = next {
        epochs[usize::from(vm.number())] = epoch;
    }
}
