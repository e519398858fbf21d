//! A guest reads or writes one of its pages.

ghost use Rattle.std.specs.Prelude.{◌≡◌, ◌<◌, ◌+◌, ◌^◌, length, take, drop, Some, None, Ok, IfOk, unwrap_or};
ghost use Rattle.std.specs.Option.{option_copied};
ghost use Rattle.esx_types.specs.declared.config.TheConstants.{VM_NUMBERS};
ghost use Rattle.esx_events.specs.declared.event.Answer.TheVariants as answers;
ghost use Rattle.esx_model.specs.declared.scene.Vm.{Vm};
ghost use Rattle.esx_model.specs.declared.scene.Place.TheVariants.{Untouched};
ghost use Rattle.esx_model.specs.Places.{contents, is_shared};
ghost use Rattle.esx_model.specs.sound.Sound.{IsSound};
ghost use Rattle.esx_model.specs.event.Outcome.{first, standing};
ghost use Rattle.esx_model.specs.event.Sampling.{counted};
ghost use Rattle.esx_model.specs.event.Access.{access_gate, overwritten, read_frame, write_frame, after_access, read, write};
ghost use Rattle.esx_steps.specs.Gives.{Gives};

use crate::event::balloon::popped;
use crate::event::sampling::counted;
use crate::site::{has_two_pages, least_free, put, vm_of};
use crate::vm::{place_at, resident};
use esx_events::{Answer, Refusal};
use esx_model::{Place, Site, Vm};
use esx_types::{Bytes, Config, Level, SmallBytes, VmId, VmState};
use std::alloc::{AllocError, Global};

/// Why an access is refused, before a frame is looked for.
fn access_gate(
    config: &Config,
    level: Level,
    vm: &Vm,
    page: u32,
    at: u32,
    len: usize,
) -> Option<Refusal>
    requires { len < 2 ^ 63 }
    ensures { result ≡ first (access_gate config.now level (standing vm.now) page at len) }
{
    if vm.state != VmState::Running {
        return Some(Refusal::NotRunning);
    }
    if vm.spec.max <= page || len == 0 || (config.page as usize) < at as usize + len {
        return Some(Refusal::OutOfRange);
    }
    if level == Level::Low && (vm.target as usize) < resident(vm) {
        return Some(Refusal::Held);
    }
    None
}

/// The bytes of a page: zeros where it was never brought, or was given up.
pub fn contents(alloc: Global, config: &Config, place: Option<&Place>) -> Result<Bytes, AllocError>
    ensures { IfOk result (λ bytes. bytes ≡ contents config.now (unwrap_or (option_copied place.entry) Untouched)) }
{
    match place {
        Some(Place::Here { bytes, .. } | Place::Out { bytes, .. }) => bytes.copy(),
        _ => Bytes::zeros(alloc, config.page as usize),
    }
}

fn is_shared(place: Option<&Place>) -> bool
    ensures { result ≡ is_shared (unwrap_or (option_copied place.entry) Untouched) }
{
    match place {
        Some(Place::Here { shared, .. }) => *shared,
        _ => false,
    }
}

/// The frame that a read finds a page in, or takes for it, if there is one.
fn read_frame(config: &Config, site: &Site, place: Option<&Place>) -> Option<u32>
    ensures { result ≡ read_frame config.now site.now (unwrap_or (option_copied place.entry) Untouched) }
{
    match place {
        Some(Place::Here { frame, .. }) => Some(*frame),
        _ => least_free(site, config.frames),
    }
}

/// The frame that a page is in after a write, if there is one.
fn write_frame(config: &Config, site: &Site, place: Option<&Place>) -> Option<u32>
    ensures { result ≡ write_frame config.now site.now (unwrap_or (option_copied place.entry) Untouched) }
{
    match place {
        Some(Place::Here { frame, shared, .. }) => {
            if *shared && has_two_pages(site, *frame) {
                least_free(site, config.frames)
            } else {
                Some(*frame)
            }
        }
        _ => least_free(site, config.frames),
    }
}

fn front(bytes: &[u8], len: usize) -> &[u8]
    ensures { result.now ≡ take len bytes.now }
{
    if len < bytes.len() {
        &bytes[..len]
    } else {
        bytes
    }
}

fn back(bytes: &[u8], from: usize) -> &[u8]
    ensures { result.now ≡ drop from bytes.now }
{
    if from < bytes.len() {
        &bytes[from..]
    } else {
        &[]
    }
}

/// A copy with some bytes written over.
fn overwritten(alloc: Global, old: &[u8], at: usize, new: &[u8]) -> Result<Bytes, AllocError>
    requires { at + length new.now < 2 ^ 64 }
    ensures { IfOk result (λ bytes. bytes ≡ overwritten old.now at new.now) }
{
    let mut bytes = Vec::from_slice(alloc, front(old, at))?;
    bytes.extend_from_slice(new)?;
    bytes.extend_from_slice(back(old, at + new.len()))?;
    Ok(Bytes::from_vec(bytes))
}

/// Some of a page's bytes.
fn part(alloc: Global, bytes: &[u8], at: usize, len: usize) -> Result<Answer, AllocError>
    ensures { IfOk result (λ a. a ≡ answers.Bytes (take len (drop at bytes.now))) }
{
    Ok(Answer::Bytes {
        bytes: SmallBytes::copy_of(alloc, front(back(bytes, at), len))?,
    })
}

/// A page comes to a place by an access.
fn after_access(
    alloc: Global,
    config: &Config,
    site: Site,
    number: usize,
    page: u32,
    place: Place,
) -> Result<Site, AllocError>
    requires sound { IsSound config.now site }
    requires number { number < VM_NUMBERS }
    ensures { IfOk result (λ t. t ≡ after_access site number page place) }
{
    let _page_size = config.page;
    let site = popped(site, number, page);
    let site = put(alloc, site, number, page, place)?;
    counted(site, number, page)
}

/// Reads some bytes of a page.
#[tactic(auto, unfolding(esx_model::specs::event::Access::read))]
pub fn read(
    alloc: Global,
    config: &Config,
    site: Site,
    level: Level,
    vm: VmId,
    page: u32,
    at: u32,
    len: u32,
) -> Result<(Answer, Site), Refusal>
    requires { IsSound config.now site }
    ensures { Gives result (read config.now site level vm page at len) }
{
    let number = usize::from(vm.number());
    let Some(row) = vm_of(config, &site, number) else {
        return Err(Refusal::NoVm);
    };
    if let Some(refusal) = access_gate(config, level, row, page, at, len as usize) {
        return Err(refusal);
    }
    let place = place_at(row, page);
    let Some(frame) = read_frame(config, &site, place) else {
        return Err(Refusal::Short);
    };
    let bytes = contents(alloc, config, place)?;
    let answer = part(alloc, bytes.as_slice(), at as usize, len as usize)?;
    let shared = is_shared(place);
    let place = Place::Here {
        bytes,
        frame,
        shared,
    };
    let site = after_access(alloc, config, site, number, page, place)?;
    Ok((answer, site))
}

/// Writes some bytes of a page; a frame that others use is not written.
#[tactic(auto, unfolding(esx_model::specs::event::Access::write))]
pub fn write(
    alloc: Global,
    config: &Config,
    site: Site,
    level: Level,
    vm: VmId,
    page: u32,
    at: u32,
    new: &[u8],
) -> Result<(Answer, Site), Refusal>
    requires { IsSound config.now site }
    ensures { Gives result (write config.now site level vm page at new.now) }
{
    let number = usize::from(vm.number());
    let Some(row) = vm_of(config, &site, number) else {
        return Err(Refusal::NoVm);
    };
    if let Some(refusal) = access_gate(config, level, row, page, at, new.len()) {
        return Err(refusal);
    }
    let place = place_at(row, page);
    let Some(frame) = write_frame(config, &site, place) else {
        return Err(Refusal::Short);
    };
    let old = contents(alloc, config, place)?;
    let bytes = overwritten(alloc, old.as_slice(), at as usize, new)?;
    let place = Place::Here {
        bytes,
        frame,
        shared: false,
    };
    let site = after_access(alloc, config, site, number, page, place)?;
    Ok((Answer::Done, site))
}
