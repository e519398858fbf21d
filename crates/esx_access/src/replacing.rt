//! A page comes into the frame of another page of its machine, which goes out.

ghost use Rattle.std.specs.Prelude.{◌≡◌, ◌<◌, ◌++◌, Some, OnOk, IfOk};
ghost use Rattle.std.specs.List.{list_any};
ghost use Rattle.esx_types.specs.Frames.{is_shared, frame_at};
ghost use Rattle.esx_types.specs.Pages.{page_at, is_here};
ghost use Rattle.esx_frames.specs.Counts.{counts_of};
ghost use Rattle.esx_model.specs.Tables.{standing_of};
ghost use Rattle.esx_model.specs.event.Outcome.{first};
ghost use Rattle.esx_model.specs.event.Paging.{replace_gate};
ghost use Rattle.esx_changes.specs.Planned.{Plans};
ghost use Rattle.esx_changes.specs.Spare.{has_spare};
ghost use Rattle.esx_access.specs.Replacing.{slot_for, own_changes, new_changes, replace_changes, replace_plan};

use crate::access::push_popped;
use esx_changes::Plan;
use esx_changes::counted::push_part;
use esx_changes::drawn::drawn_page;
use esx_changes::spare::any_spare;
use esx_events::{Answer, Refusal};
use esx_frames::Mark;
use esx_tables::{Change, Record, SiteTables, VmPart, VmTable};
use esx_types::{Bytes, Config, FrameRow, Listing, MapRow, VmId, VmState};
use std::alloc::{AllocError, Global};

/// Why a replacement is refused, before a page is drawn.
fn replace_gate(tables: &SiteTables, row: &VmTable, page: u32) -> Option<Refusal>
    ensures { result ≡ first (replace_gate (standing_of row.now) page (is_here (page_at row.now.pages page)) (counts_of tables.now.frames).free (list_any has_spare tables.now.vms)) }
{
    let standing = row.standing();
    if standing.state != VmState::Running {
        return Some(Refusal::NotRunning);
    }
    if standing.spec.max <= page {
        return Some(Refusal::OutOfRange);
    }
    if row.page(page).is_here() || 0 < tables.counts().free || any_spare(tables) {
        return Some(Refusal::NotNeeded);
    }
    None
}

/// The slot that the wanted page leaves, or else the least that is free.
fn slot_for(tables: &SiteTables, place: MapRow) -> Option<u32>
    ensures { result ≡ slot_for tables.now place }
{
    match place {
        MapRow::Out { slot } => Some(slot),
        MapRow::Untouched => tables.least_slot(),
        MapRow::Here { .. } => tables.least_slot(),
        MapRow::Lent { .. } => tables.least_slot(),
    }
}

/// Is the frame a shared one?
#[tactic(auto, using(esx_changes::proofs::Rows::past_frames))]
fn is_shared(tables: &SiteTables, frame: u32) -> bool
    ensures { result ≡ is_shared (frame_at tables.now.frames frame) }
{
    match tables.frame(frame) {
        Some(row) => row.is_shared(),
        None => false,
    }
}

/// A frame that was shared is the one page's that is left in it.
fn push_own(changes: &mut Vec<Change>, tables: &SiteTables, frame: u32) -> Result<(), AllocError>
    ensures { OnOk result (changes.new.items ≡ changes.old.items ++ own_changes frame (frame_at tables.now.frames frame)) }
{
    if is_shared(tables, frame) {
        let mark = Mark::Private;
        changes.push(Change::MarkAt { frame, mark })?;
    }
    Ok(())
}

/// A page that comes from no slot comes as zeros.
fn push_new(
    changes: &mut Vec<Change>,
    alloc: Global,
    config: &Config,
    frame: u32,
    place: MapRow,
) -> Result<(), AllocError>
    ensures { OnOk result (changes.new.items ≡ changes.old.items ++ new_changes config.now frame place) }
{
    match place {
        MapRow::Here { .. } => return Ok(()),
        MapRow::Out { .. } => return Ok(()),
        MapRow::Untouched => {}
        MapRow::Lent { .. } => {}
    }
    let bytes = Bytes::zeros(alloc, config.page as usize)?;
    let row = FrameRow::Private { bytes };
    changes.push(Change::FrameAt { frame, row })?;
    Ok(())
}

/// The changes where one page goes to a slot, and the wanted one comes to its frame.
fn replace_changes(
    tables: &SiteTables,
    alloc: Global,
    config: &Config,
    vm: VmId,
    row: &VmTable,
    page: u32,
    victim: u32,
    slot: u32,
    frame: u32,
) -> Result<Vec<Change>, AllocError>
    ensures { IfOk result (λ changes. changes.items ≡ replace_changes config.now tables.now vm row.now page (page_at row.now.pages page) victim slot frame) }
{
    let place = row.page(page);
    let mut changes = Vec::with_capacity(alloc, 7)?;
    push_own(&mut changes, tables, frame)?;
    let listing = Listing::Unlisted;
    changes.push(Change::ListingAt { frame, listing })?;
    changes.push(Change::FrameWithSlot { frame, slot })?;
    push_new(&mut changes, alloc, config, frame, place)?;
    let out = MapRow::Out { slot };
    push_part(
        &mut changes,
        vm,
        VmPart::PageAt {
            page: victim,
            row: out,
        },
    )?;
    let here = MapRow::Here { frame };
    push_part(&mut changes, vm, VmPart::PageAt { page, row: here })?;
    push_popped(&mut changes, vm, row, place)?;
    Ok(changes)
}

/// Brings a page into the frame of another page of its machine, drawn by the word, where no frame is
/// free and no machine has more than its least. The other page goes to the slot that the wanted one
/// leaves, or else to the least that is free.
#[tactic(auto, unfolding(crate::specs::Replacing::replace_plan))]
pub fn plan_replace(
    tables: &SiteTables,
    alloc: Global,
    config: &Config,
    vm: VmId,
    page: u32,
    word: u64,
) -> Result<Plan, Refusal>
    ensures { Plans result (replace_plan config.now tables.now vm page word) }
{
    let Some(row) = tables.vm(vm) else {
        return Err(Refusal::NoVm);
    };
    if let Some(refusal) = replace_gate(tables, row, page) {
        return Err(refusal);
    }
    let Some(victim) = drawn_page(row, word) else {
        return Err(Refusal::NotNeeded);
    };
    let MapRow::Here { frame } = row.page(victim) else {
        return Err(Refusal::NotNeeded);
    };
    let Some(slot) = slot_for(tables, row.page(page)) else {
        return Err(Refusal::Short);
    };
    let changes = replace_changes(tables, alloc, config, vm, row, page, victim, slot, frame)?;
    Ok(Plan {
        answer: Answer::Replaced {
            page: victim,
            slot,
            frame,
        },
        changes: Record::of(changes),
    })
}
