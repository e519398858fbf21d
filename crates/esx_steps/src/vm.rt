//! What a virtual machine has: counts of its pages, and the frames and slots that it takes.

ghost use Rattle.std.specs.Prelude.{◌≡◌, ◌==◌, ◌≤◌, ◌<◌, ◌+◌, ◌^◌, length, count_by, unwrap_or};
ghost use Rattle.std.specs.List.{list_any};
ghost use Rattle.std.specs.Option.{option_copied};
ghost use Rattle.esx_model.specs.declared.scene.Place.TheVariants.{Untouched};
ghost use Rattle.esx_model.specs.Places.{is_here_at, is_here, is_out_at, is_out, is_lent_in, is_private};
ghost use Rattle.esx_model.specs.Site.{vm_names, vm_holds, place_at, resident, paged_out, lent, pages_of, memory_reserve, swap_reserve};

use esx_model::{Place, Vm};

pub fn is_here_at(place: &Place, frame: u32) -> bool
    ensures { result ≡ is_here_at frame place.now }
{
    match place {
        Place::Here { frame: own, .. } => *own == frame,
        _ => false,
    }
}

pub fn is_here(place: &Place) -> bool
    ensures { result ≡ is_here place.now }
{
    matches!(place, Place::Here { .. })
}

pub fn is_private(place: &Place) -> bool
    ensures { result ≡ is_private place.now }
{
    match place {
        Place::Here { shared, .. } => !*shared,
        _ => false,
    }
}

pub fn is_out_at(place: &Place, slot: u32) -> bool
    ensures { result ≡ is_out_at slot place.now }
{
    match place {
        Place::Out { slot: own, .. } => *own == slot,
        _ => false,
    }
}

pub fn is_out(place: &Place) -> bool
    ensures { result ≡ is_out place.now }
{
    matches!(place, Place::Out { .. })
}

pub fn is_lent_in(place: &Place, epoch: u32) -> bool
    ensures { result ≡ is_lent_in epoch place.now }
{
    match place {
        Place::Lent { epoch: own } => *own == epoch,
        _ => false,
    }
}

/// Where a page is, of those that the machine has.
pub fn place_at(vm: &Vm, page: u32) -> Option<&Place>
    ensures { place_at vm.now page ≡ unwrap_or (option_copied result) Untouched }
{
    vm.places.as_slice().get(page as usize)
}

pub fn has_overhead(vm: &Vm, frame: u32) -> bool
    ensures { result ≡ list_any (λ own. own == frame) vm.now.overhead }
{
    vm.overhead.as_slice().iter().any(|own| *own == frame)
}

fn has_page_at(vm: &Vm, frame: u32) -> bool
    ensures { result ≡ list_any (is_here_at frame) vm.now.places }
{
    vm.places
        .as_slice()
        .iter()
        .any(|place| is_here_at(place, frame))
}

pub fn names(vm: &Option<Vm>, frame: u32) -> bool
    ensures { result ≡ vm_names frame vm.now }
{
    match vm {
        None => false,
        Some(vm) => {
            let overhead = has_overhead(vm, frame);
            let page = has_page_at(vm, frame);
            overhead || page
        }
    }
}

fn has_page_out_at(vm: &Vm, slot: u32) -> bool
    ensures { result ≡ list_any (is_out_at slot) vm.now.places }
{
    vm.places
        .as_slice()
        .iter()
        .any(|place| is_out_at(place, slot))
}

pub fn holds(vm: &Option<Vm>, slot: u32) -> bool
    ensures { result ≡ vm_holds slot vm.now }
{
    match vm {
        None => false,
        Some(vm) => has_page_out_at(vm, slot),
    }
}

fn pages_in(vm: &Vm, frame: u32) -> usize
    ensures { result ≡ count_by (is_here_at frame) vm.now.places }
{
    vm.places
        .as_slice()
        .iter()
        .filter(|place| is_here_at(place, frame))
        .count()
}

/// How many pages of a machine are in a frame.
pub fn pages_of(vm: &Option<Vm>, frame: u32) -> usize
    ensures { result ≡ pages_of frame vm.now }
{
    match vm {
        None => 0,
        Some(vm) => pages_in(vm, frame),
    }
}

pub fn resident(vm: &Vm) -> usize
    ensures value { result ≡ resident vm.now }
    ensures most { result ≤ length vm.now.places }
{
    vm.places
        .as_slice()
        .iter()
        .filter(|place| is_here(place))
        .count()
}

pub fn paged_out(vm: &Vm) -> usize
    ensures value { result ≡ paged_out vm.now }
    ensures most { result ≤ length vm.now.places }
{
    vm.places
        .as_slice()
        .iter()
        .filter(|place| is_out(place))
        .count()
}

pub fn lent(vm: &Vm) -> usize
    ensures value { result ≡ lent vm.now }
    ensures most { result ≤ length vm.now.places }
{
    vm.places
        .as_slice()
        .iter()
        .filter(|place| is_lent_in(place, vm.epoch))
        .count()
}

pub fn memory_reserve(vm: &Option<Vm>) -> u64
    ensures value { result ≡ memory_reserve vm.now }
    ensures fits { result < 2 ^ 33 }
{
    match vm {
        None => 0,
        Some(vm) => u64::from(vm.spec.min) + u64::from(vm.spec.overhead),
    }
}

pub fn swap_reserve(vm: &Option<Vm>) -> u64
    ensures value { result ≡ swap_reserve vm.now }
    ensures fits { result < 2 ^ 33 }
{
    match vm {
        None => 0,
        Some(vm) => u64::from(vm.spec.max.saturating_sub(vm.spec.min)),
    }
}
