//! Pages leave for the swap area, or make room for one of their own machine.

ghost use Rattle.std.specs.Prelude.{◌≡◌, ◌<◌, ◌≤◌, ◌%◌, length, Some, None, Ok, false, IfOk, unwrap_or, slice_get};
ghost use Rattle.std.specs.Option.{option_copied};
ghost use Rattle.std.specs.List.{list_any};
ghost use Rattle.esx_types.specs.declared.config.TheConstants.{MAX_PAGES, VM_NUMBERS};
ghost use Rattle.esx_model.specs.declared.scene.Vm.{Vm};
ghost use Rattle.esx_model.specs.declared.scene.Place.TheVariants.{Untouched, Here, Out};
ghost use Rattle.esx_model.specs.Places.{is_here};
ghost use Rattle.esx_model.specs.Site.{place_at, here_from, resident, least_slot};
ghost use Rattle.esx_model.specs.Hints.{placed, with_change};
ghost use Rattle.esx_model.specs.event.Balloon.{popped};
ghost use Rattle.esx_model.specs.sound.Sound.{IsSound};
ghost use Rattle.esx_model.specs.event.Outcome.{standing};
ghost use Rattle.esx_model.specs.event.Paging.{victim, is_too_early, to_slot, leave_by, swap_out, is_above_min, freed_slot, replace};
ghost use Rattle.esx_steps.specs.Gives.{Gives};

use crate::event::access::contents;
use crate::event::balloon::popped;
use crate::event::sharing::{after_look, is_in_frame, look};
use crate::site::{free_count, least_slot, put, vm_of};
use crate::vm::{is_here, lent, place_at, resident};
use esx_events::{Answer, Refusal};
use esx_model::{Look, Place, Site, Vm};
use esx_types::{Bytes, Config, Level, VmId, VmState};
use std::alloc::{AllocError, Global};

/// The numbers of the pages of a machine that are in frames.
#[tactic(auto, using(crate::proofs::Draws::here_more))]
fn here(alloc: Global, places: &[Place]) -> Result<Vec<u32>, AllocError>
    requires { length places.now ≤ MAX_PAGES }
    ensures { IfOk result (λ pages. pages.items ≡ here_from 0 places.now) }
{
    let mut pages = Vec::new(alloc);
    for page in 0..places.len() {
        if is_here(&places[page]) {
            pages.push(page as u32)?;
        }
    }
    Ok(pages)
}

/// One of some pages, drawn by a word.
fn drawn(pages: &[u32], word: u64) -> Option<u32>
    ensures { result ≡ slice_get pages.now (word % length pages.now) }
{
    if pages.is_empty() {
        return None;
    }
    let at = word % pages.len() as u64;
    pages.get(at as usize).copied()
}

/// The page that a word draws from those of a machine that are in frames.
#[tactic(auto, using(crate::proofs::Draws::one_drawn))]
fn victim(alloc: Global, vm: &Vm, word: u64) -> Result<Option<u32>, AllocError>
    requires { length vm.now.places ≤ MAX_PAGES }
    ensures { IfOk result (λ page. page ≡ victim vm.now word) }
{
    let pages = here(alloc, vm.places.as_slice())?;
    Ok(drawn(pages.as_slice(), word))
}

/// Nothing is paged at the highest level, nor at the next while the balloon may still lend.
fn is_too_early(level: Level, vm: &Vm) -> bool
    ensures { result ≡ is_too_early level (standing vm.now) }
{
    match level {
        Level::High => true,
        Level::Soft => { vm.state == VmState::Running && lent(vm) < vm.spec.balloon_max as usize }
        Level::Hard | Level::Low => false,
    }
}

/// A page goes to the least slot that is free.
fn to_slot(
    alloc: Global,
    config: &Config,
    site: Site,
    number: usize,
    page: u32,
    bytes: Bytes,
) -> Result<(Answer, Site), Refusal>
    requires { number < length site.vms }
    ensures { Gives result (to_slot site number page bytes (least_slot config.now.slots site)) }
{
    let Some(slot) = least_slot(&site, config.slots) else {
        return Err(Refusal::Short);
    };
    let site = put(alloc, site, number, page, Place::Out { bytes, slot })?;
    Ok((Answer::PagedOut { page, slot }, site))
}

/// A page that can be shared is shared; any other goes to a slot.
fn leave_by(
    alloc: Global,
    config: &Config,
    site: Site,
    vm: VmId,
    page: u32,
    bytes: Bytes,
    look: Look,
) -> Result<(Answer, Site), Refusal>
    requires { length site.vms ≡ VM_NUMBERS }
    ensures { Gives result (leave_by config.now site vm page bytes look) }
{
    match look {
        Look::SharedFrame { frame } | Look::OtherPage { frame, .. } => {
            let site = after_look(alloc, site, vm, page, bytes.as_slice(), &look)?;
            Ok((Answer::SharedOut { page, frame }, site))
        }
        Look::Already | Look::Changed | Look::OtherBytes | Look::Nothing => {
            to_slot(alloc, config, site, usize::from(vm.number()), page, bytes)
        }
    }
}

/// Pages one page out, drawn by the word.
#[tactic(auto, unfolding(esx_model::specs::event::Paging::swap_out))]
pub fn swap_out(
    alloc: Global,
    config: &Config,
    site: Site,
    level: Level,
    vm: VmId,
    word: u64,
) -> Result<(Answer, Site), Refusal>
    requires { IsSound config.now site }
    ensures { Gives result (swap_out config.now site level vm word) }
{
    let number = usize::from(vm.number());
    let Some(row) = vm_of(config, &site, number) else {
        return Err(Refusal::NoVm);
    };
    if is_too_early(level, row) {
        return Err(Refusal::NotNow { level });
    }
    if resident(row) <= row.target as usize {
        return Err(Refusal::AtTarget);
    }
    let Some(page) = victim(alloc, row, word)? else {
        return Err(Refusal::AtTarget);
    };
    let place = place_at(row, page);
    let bytes = contents(alloc, config, place)?;
    let look = look(&site, number, page, place);
    leave_by(alloc, config, site, vm, page, bytes, look)
}

/// The machine has more than its least.
fn is_above_min(vm: &Option<Vm>) -> bool
    ensures { result ≡ is_above_min vm.now }
{
    match vm {
        None => false,
        Some(vm) => (vm.spec.min as usize) < resident(vm),
    }
}

fn any_above_min(site: &Site) -> bool
    ensures { result ≡ list_any is_above_min site.now.vms }
{
    site.vms.as_slice().iter().any(|vm| is_above_min(vm))
}

/// The slot that a page leaves when it comes, or else the least free one.
fn freed_slot(config: &Config, site: &Site, place: Option<&Place>) -> Option<u32>
    ensures { result ≡ freed_slot config.now site.now (unwrap_or (option_copied place.entry) Untouched) }
{
    match place {
        Some(Place::Out { slot, .. }) => Some(*slot),
        _ => least_slot(site, config.slots),
    }
}

/// A page leaves its frame for a slot, and another page of its machine comes there.
fn exchange(
    alloc: Global,
    site: Site,
    number: usize,
    page: u32,
    wanted: Bytes,
    other: u32,
    bytes: Bytes,
    frame: u32,
    slot: u32,
) -> Result<Site, AllocError>
    requires { number < length site.vms }
    ensures { IfOk result (λ t. t ≡ placed (placed (with_change site number (popped page)) number other (Out bytes slot)) number page (Here wanted frame false)) }
{
    let site = popped(site, number, page);
    let site = put(alloc, site, number, other, Place::Out { bytes, slot })?;
    let place = Place::Here {
        bytes: wanted,
        frame,
        shared: false,
    };
    put(alloc, site, number, page, place)
}

/// Brings a page into the frame of another page of its machine, drawn by the word.
#[tactic(auto, unfolding(esx_model::specs::event::Paging::replace))]
pub fn replace(
    alloc: Global,
    config: &Config,
    site: Site,
    vm: VmId,
    page: u32,
    word: u64,
) -> Result<(Answer, Site), Refusal>
    requires { IsSound config.now site }
    ensures { Gives result (replace config.now site vm page word) }
{
    let number = usize::from(vm.number());
    let Some(row) = vm_of(config, &site, number) else {
        return Err(Refusal::NoVm);
    };
    if row.state != VmState::Running {
        return Err(Refusal::NotRunning);
    }
    if row.spec.max <= page {
        return Err(Refusal::OutOfRange);
    }
    let place = place_at(row, page);
    if is_in_frame(place) || 0 < free_count(&site, config.frames) || any_above_min(&site) {
        return Err(Refusal::NotNeeded);
    }
    let Some(other) = victim(alloc, row, word)? else {
        return Err(Refusal::NotNeeded);
    };
    let Some(Place::Here { bytes, frame, .. }) = place_at(row, other) else {
        return Err(Refusal::NotNeeded);
    };
    let bytes = bytes.copy()?;
    let frame = *frame;
    let Some(slot) = freed_slot(config, &site, place) else {
        return Err(Refusal::Short);
    };
    let wanted = contents(alloc, config, place)?;
    let answer = Answer::Replaced {
        page: other,
        slot,
        frame,
    };
    let site = exchange(alloc, site, number, page, wanted, other, bytes, frame, slot)?;
    Ok((answer, site))
}
