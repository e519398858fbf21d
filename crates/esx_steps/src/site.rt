//! What a site has: its machines by number, what is free, what is reserved, and a page's change of place.

ghost use Rattle.std.specs.Prelude.{◌≡◌, ◌<◌, ◌≤◌, ◌*◌, ◌^◌, ◌-◌, length, Some, None, min, nat_lt, MatchOption, filter, IfOk, IfSome, ◌==◌, ◌&&◌};
ghost use Rattle.esx_types.specs.declared.config.TheConstants.{VM_NUMBERS};
ghost use Rattle.esx_model.specs.declared.scene.Vm.{Vm};
ghost use Rattle.esx_model.specs.Site.{vm_at, is_named, is_held, least_free, free_count, least_slot, pages_at, memory_reserved, swap_reserved};
ghost use Rattle.esx_model.specs.Hints.{is_hint_of, without_hint, placed, with_place, with_change};
ghost use Rattle.esx_model.specs.sound.Sound.{IsSound};
ghost use Rattle.esx_steps.specs.Numbers.{HasNumbers};

use crate::vm::{holds, is_private, memory_reserve, names, pages_of, swap_reserve};
use esx_model::{Place, Site, Vm};
use esx_types::{Config, Hint, Rows};
use std::alloc::{AllocError, Global};

/// The machine with a number.
pub fn vm_at(site: &Site, number: usize) -> Option<&Vm>
    ensures { MatchOption result (vm_at site.now number ≡ None) (λ vm. vm_at site.now number ≡ Some vm.now) }
{
    match site.vms.as_slice().get(number) {
        Some(Some(vm)) => Some(vm),
        _ => None,
    }
}

/// The machine with a number, on a site that a path leads to.
#[tactic(auto, using(crate::proofs::Numbers::numbers))]
pub fn vm_of<'a>(config: &Config, site: &'a Site, number: usize) -> Option<&'a Vm>
    requires { IsSound config.now site.now }
    ensures value { MatchOption result (vm_at site.now number ≡ None) (λ vm. vm_at site.now number ≡ Some vm.now) }
    ensures numbers { IfSome result (λ vm. HasNumbers vm.now) }
{
    vm_at(site, number)
}

fn is_named(site: &Site, frame: u32) -> bool
    ensures { result ≡ is_named site.now frame }
{
    site.vms.as_slice().iter().any(|vm| names(vm, frame))
}

fn is_held(site: &Site, slot: u32) -> bool
    ensures { result ≡ is_held site.now slot }
{
    site.vms.as_slice().iter().any(|vm| holds(vm, slot))
}

#[tactic(auto, unfolding(esx_model::specs::Site::least_free))]
pub fn least_free(site: &Site, frames: u32) -> Option<u32>
    ensures { result ≡ least_free frames site.now }
{
    (0..frames).find(|frame| !is_named(site, *frame))
}

#[tactic(auto, unfolding(esx_model::specs::Site::free_count))]
pub fn free_count(site: &Site, frames: u32) -> usize
    ensures value { result ≡ free_count frames site.now }
    ensures fits { result ≤ frames }
{
    (0..frames).filter(|frame| !is_named(site, *frame)).count()
}

#[tactic(auto, unfolding(esx_model::specs::Site::least_slot))]
pub fn least_slot(site: &Site, slots: u32) -> Option<u32>
    ensures { result ≡ least_slot slots site.now }
{
    (0..slots).find(|slot| !is_held(site, *slot))
}

/// How many pages are in a frame.
#[tactic(auto, unfolding(esx_model::specs::Site::pages_at))]
pub fn pages_at(site: &Site, frame: u32) -> usize
    ensures { result ≡ min (pages_at frame site.now) (2 ^ 64 - 1) }
{
    let mut total = 0usize;
    for vm in site.vms.as_slice() {
        total = total.saturating_add(pages_of(vm, frame));
    }
    total
}

/// Another page is in the frame too.
pub fn has_two_pages(site: &Site, frame: u32) -> bool
    ensures { result ≡ nat_lt 1 (pages_at frame site.now) }
{
    1 < pages_at(site, frame)
}

pub fn memory_reserved(site: &Site) -> u64
    requires { length site.now.vms ≤ VM_NUMBERS }
    ensures value { result ≡ memory_reserved site.now }
    ensures fits { result ≤ VM_NUMBERS * 2 ^ 33 }
{
    let mut total = 0;
    for vm in site.vms.as_slice() {
        total += memory_reserve(vm);
    }
    total
}

pub fn swap_reserved(site: &Site) -> u64
    requires { length site.now.vms ≤ VM_NUMBERS }
    ensures value { result ≡ swap_reserved site.now }
    ensures fits { result ≤ VM_NUMBERS * 2 ^ 33 }
{
    let mut total = 0;
    for vm in site.vms.as_slice() {
        total += swap_reserve(vm);
    }
    total
}

pub fn is_hint_of(hint: &Hint, number: usize, page: u32) -> bool
    ensures { result ≡ is_hint_of number page hint.now }
{
    usize::from(hint.vm.number()) == number && hint.page == page
}

/// The hints without that of a page.
fn without_hint(
    alloc: Global,
    hints: &[Hint],
    number: usize,
    page: u32,
) -> Result<Vec<Hint>, AllocError>
    ensures { IfOk result (λ kept. kept.items ≡ without_hint number page hints.now) }
{
    hints
        .iter()
        .copied()
        .filter(|hint| !is_hint_of(hint, number, page))
        .collect(alloc)
}

fn put_page(site: Site, number: usize, page: u32, place: Place) -> Site
    requires { number < length site.vms }
    ensures value { result ≡ with_change site number (with_place page place) }
    ensures len { length result.vms ≡ length site.vms }
{
    let mut site = site;
    if let Some(vm) = site.vms.row_mut(number) {
        vm.places.set(page as usize, place);
    }
    site
}

/// A page comes to another place: its hint ends where it is not private in a frame.
#[tactic(auto, unfolding(esx_model::specs::Hints::placed))]
pub fn put(
    alloc: Global,
    site: Site,
    number: usize,
    page: u32,
    place: Place,
) -> Result<Site, AllocError>
    requires { number < length site.vms }
    ensures value { IfOk result (λ t. t ≡ placed site number page place) }
    ensures len { IfOk result (λ t. length t.vms ≡ length site.vms) }
{
    let stays = is_private(&place);
    let mut site = put_page(site, number, page, place);
    if !stays {
        let kept = without_hint(alloc, site.hints.as_slice(), number, page)?;
        site.hints = Rows::from_vec(kept);
    }
    Ok(site)
}
