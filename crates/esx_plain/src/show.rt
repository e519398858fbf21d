//! The tables that show a scene.

ghost use Rattle.std.specs.Prelude.{◌≡◌, ◌<◌, ◌^◌, Some, None, length, ◌==◌, find, IfOk};
ghost use Rattle.std.specs.List.{list_any};
ghost use Rattle.std.specs.Option.{option_copied};
ghost use Rattle.esx_types.specs.Ranges.{IsConfig};
ghost use Rattle.esx_model.specs.declared.scene.Scene.{Scene};
ghost use Rattle.esx_model.specs.Places.{is_here_at, is_out_at};
ghost use Rattle.esx_model.specs.Site.{all_places, vm_places, vm_overhead};
ghost use Rattle.esx_model.specs.Show.{frame_row, frame_rows, slot_row, slot_rows, shown};
ghost use Rattle.esx_model.specs.sound.Sound.{IsSound};
ghost use Rattle.esx_plain.specs.Shown.{first_row, first_slot};

use crate::keys::shared_rows;
use crate::machines::vm_rows;
use esx_model::{Book, Place, Scene, Site, Vm};
use esx_steps::{has_overhead, is_here_at, is_out_at, pages_at};
use esx_types::{Config, FrameRow, Rows, SlotRow};
use std::alloc::{AllocError, Global};

fn has_frame(vm: &Option<Vm>, frame: u32) -> bool
    ensures { result ≡ list_any (λ own. own == frame) (vm_overhead vm.now) }
{
    match vm {
        None => false,
        Some(vm) => has_overhead(vm, frame),
    }
}

/// The first page of a machine that is in a frame.
fn page_in(vm: &Option<Vm>, frame: u32) -> Option<&Place>
    ensures { option_copied result ≡ find (is_here_at frame) (vm_places vm.now) }
{
    match vm {
        None => None,
        Some(vm) => vm
            .places
            .as_slice()
            .iter()
            .find(|place| is_here_at(place, frame)),
    }
}

/// The first page of a machine that is in a slot.
fn page_out_at(vm: &Option<Vm>, slot: u32) -> Option<&Place>
    ensures { option_copied result ≡ find (is_out_at slot) (vm_places vm.now) }
{
    match vm {
        None => None,
        Some(vm) => vm
            .places
            .as_slice()
            .iter()
            .find(|place| is_out_at(place, slot)),
    }
}

/// What the first page in a frame, and how many are in it, make of the frame.
fn first_row(first: Option<&Place>, count: u32) -> Result<FrameRow, AllocError>
    ensures { IfOk result (λ row. row ≡ first_row (option_copied first.entry) count) }
{
    match first {
        Some(Place::Here { bytes, shared, .. }) => {
            let bytes = bytes.copy()?;
            Ok(if *shared {
                FrameRow::Shared { count, bytes }
            } else {
                FrameRow::Private { bytes }
            })
        }
        _ => Ok(FrameRow::Free),
    }
}

/// What the first page in a slot makes of the slot.
fn first_slot(first: Option<&Place>) -> Result<SlotRow, AllocError>
    ensures { IfOk result (λ row. row ≡ first_slot (option_copied first.entry)) }
{
    match first {
        Some(Place::Out { bytes, .. }) => Ok(SlotRow::Held {
            bytes: bytes.copy()?,
        }),
        _ => Ok(SlotRow::Free),
    }
}

fn is_overhead(site: &Site, frame: u32) -> bool
    ensures { result ≡ list_any (λ vm. list_any (λ own. own == frame) (vm_overhead vm)) site.now.vms }
{
    site.vms.as_slice().iter().any(|vm| has_frame(vm, frame))
}

/// The first page, by machine and by number, that is in a frame.
#[tactic(auto, unfolding(esx_model::specs::Site::all_places))]
fn first_page_in(site: &Site, frame: u32) -> Option<&Place>
    ensures { option_copied result ≡ find (is_here_at frame) (all_places site.now) }
{
    for vm in site.vms.as_slice() {
        if let Some(place) = page_in(vm, frame) {
            return Some(place);
        }
    }
    None
}

/// The first page, by machine and by number, that is in a slot.
#[tactic(auto, unfolding(esx_model::specs::Site::all_places))]
fn first_page_out_at(site: &Site, slot: u32) -> Option<&Place>
    ensures { option_copied result ≡ find (is_out_at slot) (all_places site.now) }
{
    for vm in site.vms.as_slice() {
        if let Some(place) = page_out_at(vm, slot) {
            return Some(place);
        }
    }
    None
}

#[tactic(auto, using(crate::proofs::FirstPages::frame_row_found, crate::proofs::FirstPages::pages_few))]
fn frame_row(site: &Site, frame: u32) -> Result<FrameRow, AllocError>
    requires { length (all_places site.now) < 2 ^ 32 }
    ensures { IfOk result (λ row. row ≡ frame_row site.now frame) }
{
    if is_overhead(site, frame) {
        return Ok(FrameRow::Overhead);
    }
    let pages = pages_at(site, frame);
    first_row(first_page_in(site, frame), pages as u32)
}

#[tactic(auto, using(crate::proofs::FirstPages::slot_row_found))]
fn slot_row(site: &Site, slot: u32) -> Result<SlotRow, AllocError>
    ensures { IfOk result (λ row. row ≡ slot_row site.now slot) }
{
    first_slot(first_page_out_at(site, slot))
}

fn frame_rows(site: &Site, alloc: Global, frames: u32) -> Result<Rows<FrameRow>, AllocError>
    requires { length (all_places site.now) < 2 ^ 32 }
    ensures { IfOk result (λ rows. rows ≡ frame_rows frames site.now) }
{
    let mut rows = Rows::new(alloc);
    for frame in 0..frames {
        rows.push(frame_row(site, frame)?)?;
    }
    Ok(rows)
}

fn slot_rows(site: &Site, alloc: Global, slots: u32) -> Result<Rows<SlotRow>, AllocError>
    ensures { IfOk result (λ rows. rows ≡ slot_rows slots site.now) }
{
    let mut rows = Rows::new(alloc);
    for slot in 0..slots {
        rows.push(slot_row(site, slot)?)?;
    }
    Ok(rows)
}

/// The tables that show a scene.
#[tactic(auto, using(crate::proofs::FirstPages::places_few))]
pub fn shown(alloc: Global, config: &Config, scene: &Scene) -> Result<Book, AllocError>
    requires config { IsConfig config.now }
    requires sound { IsSound config.now scene.now.site }
    ensures { IfOk result (λ book. book ≡ shown config.now scene.now) }
{
    let site = &scene.site;
    let frames = frame_rows(site, alloc, config.frames)?;
    let shared = shared_rows(alloc, frames.as_slice())?;
    Ok(Book {
        slots: slot_rows(site, alloc, config.slots)?,
        vms: vm_rows(alloc, config, site)?,
        hints: Rows::from_vec(Vec::from_slice(alloc, site.hints.as_slice())?),
        tau: site.tau,
        level: scene.level,
        frames,
        shared,
    })
}
