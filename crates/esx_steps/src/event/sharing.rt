//! Pages with equal bytes come to share one frame.

ghost use Rattle.std.specs.Prelude.{◌≡◌, ◌==◌, ◌^◌, ℕ, nat_le, IfSome, ◌&&◌, ◌||◌, ◌<◌, not, find, filter, length, Some, None, true, Ok, OnOk, IfOk, unwrap_or};
ghost use Rattle.std.specs.Option.{option_copied};
ghost use Rattle.std.specs.List.{position_from};
ghost use Rattle.esx_types.specs.declared.config.TheConstants.{VM_NUMBERS};
ghost use Rattle.esx_model.specs.declared.scene.Vm.{Vm};
ghost use Rattle.esx_model.specs.declared.scene.Place.TheVariants.{Untouched, Here};
ghost use Rattle.esx_model.specs.Places.{contents, is_here};
ghost use Rattle.esx_model.specs.Site.{vm_at, vm_places, all_places, place_of, pages_at};
ghost use Rattle.esx_model.specs.Hints.{other_hint, is_hint_of, in_order, placed};
ghost use Rattle.esx_formulas.specs.Key.{content_key};
ghost use Rattle.esx_model.specs.sound.Sound.{IsSound};
ghost use Rattle.esx_model.specs.event.Sharing.{is_shared_under, shared_under, look_at_shared, look_at_hinted, look_at_hint, look_private, look, hinted, after_look, said_of, scan};
ghost use Rattle.esx_steps.specs.Gives.{Gives};

use crate::event::access::contents;
use crate::site::{is_hint_of, pages_at, put, vm_at, vm_of};
use crate::vm::{is_here, place_at};
use esx_events::{Answer, Refusal, Scanned};
use esx_formulas::{content_key, hint_key, short_of};
use esx_model::{Look, Place, Site, Vm};
use esx_types::{Bytes, Config, Hint, Rows, VmId, VmState};
use std::alloc::{AllocError, Global};

/// The page is shared, and its content has that key.
fn is_shared_under(place: &Place, key: u64) -> bool
    ensures { result ≡ is_shared_under key place.now }
{
    match place {
        Place::Here {
            bytes,
            shared: true,
            ..
        } => content_key(bytes.as_slice()) == key,
        _ => false,
    }
}

/// The first page of a machine that is shared under a key.
fn shared_of(vm: &Option<Vm>, key: u64) -> Option<&Place>
    ensures { option_copied result ≡ find (is_shared_under key) (vm_places vm.now) }
{
    match vm {
        None => None,
        Some(vm) => vm
            .places
            .as_slice()
            .iter()
            .find(|place| is_shared_under(place, key)),
    }
}

/// The first page, by machine and by number, that is shared under a key.
#[tactic(auto, unfolding(esx_model::specs::Site::all_places, esx_model::specs::event::Sharing::shared_under))]
fn shared_under(site: &Site, key: u64) -> Option<&Place>
    ensures { option_copied result ≡ shared_under key site.now }
{
    for vm in site.vms.as_slice() {
        if let Some(place) = shared_of(vm, key) {
            return Some(place);
        }
    }
    None
}

/// The hint of another page under a short.
fn other_hint(hints: &[Hint], key: u32, number: usize, page: u32) -> Option<Hint>
    ensures { result ≡ other_hint key number page hints.now }
{
    hints
        .iter()
        .copied()
        .find(|hint| hint.key == key && !is_hint_of(hint, number, page))
}

/// Where a page of a machine by its number is.
pub fn place_of(site: &Site, number: usize, page: u32) -> Option<&Place>
    ensures { unwrap_or (option_copied result) Untouched ≡ place_of site.now number page }
{
    match vm_at(site, number) {
        Some(vm) => place_at(vm, page),
        None => None,
    }
}

fn look_at_shared(bytes: &[u8], place: &Place) -> Look
    ensures { result ≡ look_at_shared bytes.now place.now }
{
    match place {
        Place::Here {
            bytes: others,
            frame,
            ..
        } => {
            if bytes == others.as_slice() {
                Look::SharedFrame { frame: *frame }
            } else {
                Look::OtherBytes
            }
        }
        _ => Look::Nothing,
    }
}

fn look_at_hinted(bytes: &[u8], hint: Hint, place: Option<&Place>) -> Look
    ensures { result ≡ look_at_hinted bytes.now hint (unwrap_or (option_copied place.entry) Untouched) }
{
    match place {
        Some(
            Place::Here {
                bytes: others,
                frame,
                ..
            },
        ) => {
            if hint_key(others.as_slice()) != hint.key {
                Look::Changed
            } else if bytes == others.as_slice() {
                Look::OtherPage {
                    vm: hint.vm,
                    page: hint.page,
                    frame: *frame,
                }
            } else {
                Look::OtherBytes
            }
        }
        _ => Look::Changed,
    }
}

fn look_at_hint(site: &Site, bytes: &[u8], hint: Option<Hint>) -> Look
    ensures { result ≡ look_at_hint site.now bytes.now hint }
{
    match hint {
        None => Look::Nothing,
        Some(hint) => {
            let place = place_of(site, usize::from(hint.vm.number()), hint.page);
            look_at_hinted(bytes, hint, place)
        }
    }
}

/// A shared page comes before a hint.
fn look_private(site: &Site, number: usize, page: u32, bytes: &[u8]) -> Look
    ensures { result ≡ look_private site.now number page bytes.now (shared_under (content_key bytes.now) site.now) }
{
    let key = content_key(bytes);
    match shared_under(site, key) {
        Some(place) => look_at_shared(bytes, place),
        None => {
            let hint = other_hint(site.hints.as_slice(), short_of(key), number, page);
            look_at_hint(site, bytes, hint)
        }
    }
}

/// What a look at a page's content finds.
#[tactic(auto, unfolding(esx_model::specs::event::Sharing::look))]
pub fn look(site: &Site, number: usize, page: u32, place: Option<&Place>) -> Look
    ensures { result ≡ look site.now number page (unwrap_or (option_copied place.entry) Untouched) }
{
    match place {
        Some(Place::Here { bytes, shared, .. }) => {
            if *shared {
                Look::Already
            } else {
                look_private(site, number, page, bytes.as_slice())
            }
        }
        _ => Look::Nothing,
    }
}

/// The first hint whose short is not below a short.
fn first_from(hints: &[Hint], key: u32) -> Option<usize>
    ensures place { result ≡ position_from (λ own. nat_le key own.key) 0 hints.now }
    ensures within { IfSome result (λ at. at < length hints.now) }
{
    hints.iter().position(|own| key <= own.key)
}

/// The page is in a frame.
pub fn is_in_frame(place: Option<&Place>) -> bool
    ensures { result ≡ is_here (unwrap_or (option_copied place.entry) Untouched) }
{
    match place {
        Some(place) => is_here(place),
        None => false,
    }
}

/// Puts a hint at its place in the order of shorts.
fn add_hint(hints: &mut Vec<Hint>, new: Hint) -> Result<(), AllocError>
    ensures { OnOk result (hints.new.items ≡ in_order new hints.old.items) }
{
    let at = first_from(hints, new.key).unwrap_or(hints.len());
    hints.insert(at, new)?;
    Ok(())
}

/// The hints without those under a short, and without that of a page.
fn others(alloc: Global, hints: &[Hint], new: &Hint) -> Result<Vec<Hint>, AllocError>
    ensures { IfOk result (λ kept. kept.items ≡ filter (λ h. not ((h.key == new.now.key) || is_hint_of new.now.vm new.now.page h)) hints.now) }
{
    hints
        .iter()
        .copied()
        .filter(|own| {
            !(own.key == new.key || is_hint_of(own, usize::from(new.vm.number()), new.page))
        })
        .collect(alloc)
}

/// The page becomes the hint under its short.
fn hinted(alloc: Global, site: Site, vm: VmId, page: u32, bytes: &[u8]) -> Result<Site, AllocError>
    ensures { IfOk result (λ t. t ≡ hinted site vm page bytes.now) }
{
    let new = Hint {
        key: hint_key(bytes),
        vm,
        page,
    };
    let mut hints = others(alloc, site.hints.as_slice(), &new)?;
    add_hint(&mut hints, new)?;
    let mut site = site;
    site.hints = Rows::from_vec(hints);
    Ok(site)
}

/// A page comes into a shared frame.
fn share(
    alloc: Global,
    site: Site,
    vm: VmId,
    page: u32,
    bytes: &[u8],
    frame: u32,
) -> Result<Site, AllocError>
    requires { length site.vms ≡ VM_NUMBERS }
    ensures value { IfOk result (λ t. t ≡ placed site vm page (Here bytes.now frame true)) }
    ensures len { IfOk result (λ t. length t.vms ≡ VM_NUMBERS) }
{
    let bytes = Bytes::copy_of(alloc, bytes)?;
    let shared = true;
    let place = Place::Here {
        bytes,
        frame,
        shared,
    };
    put(alloc, site, usize::from(vm.number()), page, place)
}

/// The site after a look: equal pages come into one frame, and what finds nothing is remembered.
pub fn after_look(
    alloc: Global,
    site: Site,
    vm: VmId,
    page: u32,
    bytes: &[u8],
    look: &Look,
) -> Result<Site, AllocError>
    requires { length site.vms ≡ VM_NUMBERS }
    ensures { IfOk result (λ t. t ≡ after_look site vm page bytes.now look.now) }
{
    match look {
        Look::Already | Look::OtherBytes => Ok(site),
        Look::Changed | Look::Nothing => hinted(alloc, site, vm, page, bytes),
        Look::SharedFrame { frame } => share(alloc, site, vm, page, bytes, *frame),
        Look::OtherPage {
            vm: other,
            page: its,
            frame,
        } => {
            let site = share(alloc, site, *other, *its, bytes, *frame)?;
            share(alloc, site, vm, page, bytes, *frame)
        }
    }
}

/// What is said of a look, given the site after it.
fn said_of(after: &Site, look: &Look) -> Scanned
    requires { (f : ℕ) → pages_at f after.now < 2 ^ 32 }
    ensures { result ≡ said_of after.now look.now }
{
    match look {
        Look::Already => Scanned::Already,
        Look::SharedFrame { frame } | Look::OtherPage { frame, .. } => Scanned::Shared {
            frame: *frame,
            count: pages_at(after, *frame) as u32,
        },
        Look::Changed => Scanned::Stale,
        Look::OtherBytes => Scanned::Clash,
        Look::Nothing => Scanned::Hinted,
    }
}

/// Looks for a page with the same content, to share one frame with it.
#[tactic(auto, unfolding(esx_model::specs::event::Sharing::scan), using(crate::proofs::Few::few_after))]
pub fn scan(
    alloc: Global,
    config: &Config,
    site: Site,
    vm: VmId,
    page: u32,
) -> Result<(Answer, Site), Refusal>
    requires { IsSound config.now site }
    ensures { Gives result (scan config.now site vm page) }
{
    let number = usize::from(vm.number());
    let Some(row) = vm_of(config, &site, number) else {
        return Err(Refusal::NoVm);
    };
    if row.state != VmState::Running {
        return Err(Refusal::NotRunning);
    }
    if row.spec.max <= page {
        return Err(Refusal::OutOfRange);
    }
    let place = place_at(row, page);
    if !is_in_frame(place) {
        return Err(Refusal::NotResident);
    }
    let bytes = contents(alloc, config, place)?;
    let look = look(&site, number, page, place);
    let site = after_look(alloc, site, vm, page, bytes.as_slice(), &look)?;
    let scanned = said_of(&site, &look);
    Ok((Answer::Looked { scanned }, site))
}
