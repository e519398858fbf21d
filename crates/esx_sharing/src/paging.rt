//! Pages leave for the swap area.

ghost use Rattle.std.specs.Prelude.{◌≡◌, ◌≢◌, ℕ, IfOk, IfErr, IfSome};
ghost use Rattle.esx_types.specs.declared.table.Listing.TheVariants.{Unlisted};
ghost use Rattle.esx_types.specs.Frames.{bytes_of, frame_at};
ghost use Rattle.esx_types.specs.Listings.{listing_at};
ghost use Rattle.esx_types.specs.Slots.{least_slot};
ghost use Rattle.esx_model.specs.event.Paging.{is_too_early};
ghost use Rattle.esx_changes.specs.Planned.{Plans};
ghost use Rattle.esx_sharing.specs.Sharing.{HasCounts};
ghost use Rattle.esx_sharing.specs.Paging.{move_changes, copy_changes, last_changes, out_changes, to_slot, leave_frame, swap_out_plan};

use crate::sharing::{look_by_frame, look_changes};
use esx_changes::Plan;
use esx_changes::changes::{page_at, unlisted};
use esx_changes::drawn::drawn_page;
use esx_events::{Answer, Refusal};
use esx_model::{Look, Standing};
use esx_tables::{Change, Mark, Record, SiteTables};
use esx_types::{Bytes, FrameRow, Level, MapRow, SlotRow, VmId, VmState};
use std::alloc::{AllocError, Global};

/// Nothing is paged at the highest level, nor at the next while the balloon may still lend.
fn is_too_early(level: Level, row: &Standing) -> bool
    ensures { result ≡ is_too_early level row.now }
{
    match level {
        Level::High => true,
        Level::Soft => { matches!(row.state, VmState::Running) && row.lent < row.spec.balloon_max }
        Level::Hard | Level::Low => false,
    }
}

/// A page that is alone in its frame goes to a slot with its bytes.
fn move_changes(
    alloc: Global,
    vm: VmId,
    page: u32,
    frame: u32,
    slot: u32,
) -> Result<Vec<Change>, AllocError>
    ensures { IfOk result (λ changes. changes.items ≡ move_changes vm page frame slot) }
{
    Ok(vec![in alloc;
        Change::FrameWithSlot { frame, slot },
        unlisted(frame),
        page_at(vm, page, MapRow::Out { slot }),
    ]?)
}

/// The same for a page that is alone in a frame that was shared.
fn last_changes(
    alloc: Global,
    vm: VmId,
    page: u32,
    frame: u32,
    slot: u32,
) -> Result<Vec<Change>, AllocError>
    ensures { IfOk result (λ changes. changes.items ≡ last_changes vm page frame slot) }
{
    Ok(vec![in alloc;
        Change::MarkAt {
            frame,
            mark: Mark::Private
        },
        Change::FrameWithSlot { frame, slot },
        unlisted(frame),
        page_at(vm, page, MapRow::Out { slot }),
    ]?)
}

/// A copy of a page that others stay with in its frame goes to a slot; so many stay.
fn copy_changes(
    alloc: Global,
    vm: VmId,
    page: u32,
    frame: u32,
    slot: u32,
    count: u32,
    bytes: &[u8],
) -> Result<Vec<Change>, AllocError>
    ensures { IfOk result (λ changes. changes.items ≡ copy_changes vm page frame slot count bytes.now) }
{
    let bytes = Bytes::copy_of(alloc, bytes)?;
    Ok(vec![in alloc;
        Change::SlotAt {
            slot,
            row: SlotRow::Held { bytes }
        },
        Change::MarkAt {
            frame,
            mark: Mark::Shared { count }
        },
        page_at(vm, page, MapRow::Out { slot }),
    ]?)
}

/// What a page that goes to a slot changes, by the row of its frame.
fn out_changes(
    alloc: Global,
    vm: VmId,
    page: u32,
    frame: u32,
    slot: u32,
    row: &FrameRow,
) -> Result<Vec<Change>, AllocError>
    ensures { IfOk result (λ changes. changes.items ≡ out_changes vm page frame slot row.now) }
{
    match row {
        FrameRow::Free | FrameRow::Overhead => Ok(Vec::new(alloc)),
        FrameRow::Private { .. } => move_changes(alloc, vm, page, frame, slot),
        FrameRow::Shared { count, bytes } => {
            if 1 < *count {
                copy_changes(alloc, vm, page, frame, slot, *count - 1, bytes.as_slice())
            } else {
                last_changes(alloc, vm, page, frame, slot)
            }
        }
    }
}

/// A page goes to the least slot that is free.
fn to_slot(
    tables: &SiteTables,
    alloc: Global,
    vm: VmId,
    page: u32,
    frame: u32,
    row: &FrameRow,
) -> Result<Plan, Refusal>
    ensures { Plans result (to_slot vm page frame row.now (least_slot tables.now.slots)) }
{
    let Some(slot) = tables.least_slot() else {
        return Err(Refusal::Short);
    };
    let changes = out_changes(alloc, vm, page, frame, slot, row)?;
    Ok(Plan {
        answer: Answer::PagedOut { page, slot },
        changes: Record::of(changes),
    })
}

/// The same of a page by its frame.
#[tactic(auto, using(esx_changes::proofs::Rows::past_frames))]
fn frame_to_slot(
    tables: &SiteTables,
    alloc: Global,
    vm: VmId,
    page: u32,
    frame: u32,
) -> Result<Plan, Refusal>
    ensures { Plans result (to_slot vm page frame (frame_at tables.now.frames frame) (least_slot tables.now.slots)) }
{
    match tables.frame(frame) {
        Some(row) => to_slot(tables, alloc, vm, page, frame, row),
        None => to_slot(tables, alloc, vm, page, frame, &FrameRow::Free),
    }
}

/// A page goes to a slot where no frame that stands under a key has its bytes: there is no page to share with.
pub fn leave_unlike(
    tables: &SiteTables,
    alloc: Global,
    vm: VmId,
    page: u32,
    own: u32,
) -> Result<Plan, Refusal>
    requires { (other : ℕ) → listing_at tables.now.listings other ≢ Unlisted
        → bytes_of (frame_at tables.now.frames other) ≢ bytes_of (frame_at tables.now.frames own) }
    ensures { Plans result (leave_frame tables.now vm page own (frame_at tables.now.frames own)) }
{
    frame_to_slot(tables, alloc, vm, page, own)
}

/// A page that can be shared is shared; any other goes to a slot. Where nothing stands under a key there is no page to
/// share with, and its bytes are not hashed.
pub fn leave_frame(
    tables: &SiteTables,
    alloc: Global,
    vm: VmId,
    page: u32,
    frame: u32,
) -> Result<Plan, Refusal>
    requires { HasCounts tables.now }
    ensures { Plans result (leave_frame tables.now vm page frame (frame_at tables.now.frames frame)) }
{
    if tables.lists_none() {
        return leave_unlike(tables, alloc, vm, page, frame);
    }
    let found = look_by_frame(tables, vm, page, frame);
    match found.look {
        Look::SharedFrame { frame: other } | Look::OtherPage { frame: other, .. } => {
            let changes = look_changes(tables, alloc, vm, page, frame, &found)?;
            Ok(Plan {
                answer: Answer::SharedOut { page, frame: other },
                changes: Record::of(changes),
            })
        }
        Look::Already | Look::Changed | Look::OtherBytes | Look::Nothing => {
            frame_to_slot(tables, alloc, vm, page, frame)
        }
    }
}

/// The page that a swap-out draws, and its frame; or why it is refused before it looks.
#[tactic(auto, unfolding(crate::specs::Paging::swap_out_plan))]
fn leaving(tables: &SiteTables, level: Level, vm: VmId, word: u64) -> Result<(u32, u32), Refusal>
    ensures draws { IfOk result (λ p. swap_out_plan tables.now level vm word ≡ leave_frame tables.now vm p.0 p.1 (frame_at tables.now.frames p.1)) }
    ensures refused { IfErr result (λ e. swap_out_plan tables.now level vm word ≡ Err e) }
    ensures told { IfErr result (λ e. e ≢ Refusal.OutOfMemory) }
{
    let Some(row) = tables.vm(vm) else {
        return Err(Refusal::NoVm);
    };
    let standing = row.standing();
    if is_too_early(level, &standing) {
        return Err(Refusal::NotNow { level });
    }
    if standing.resident <= standing.target {
        return Err(Refusal::AtTarget);
    }
    let Some(page) = drawn_page(row, word) else {
        return Err(Refusal::AtTarget);
    };
    match row.page(page) {
        MapRow::Here { frame } => Ok((page, frame)),
        MapRow::Untouched | MapRow::Out { .. } | MapRow::Lent { .. } => Err(Refusal::AtTarget),
    }
}

/// A page that the word draws is paged out, where its machine has more than its target.
pub fn plan_swap_out(
    tables: &SiteTables,
    alloc: Global,
    level: Level,
    vm: VmId,
    word: u64,
) -> Result<Plan, Refusal>
    requires { HasCounts tables.now }
    ensures { Plans result (swap_out_plan tables.now level vm word) }
{
    let (page, frame) = match leaving(tables, level, vm, word) {
        Ok(drawn) => drawn,
        Err(refusal) => return Err(refusal),
    };
    leave_frame(tables, alloc, vm, page, frame)
}

/// The page that a swap-out looks at, and its frame; none where it is refused before it looks.
pub fn leaving_page(tables: &SiteTables, level: Level, vm: VmId, word: u64) -> Option<(u32, u32)>
    ensures { IfSome result (λ p. swap_out_plan tables.now level vm word ≡ leave_frame tables.now vm p.0 p.1 (frame_at tables.now.frames p.1)) }
{
    leaving(tables, level, vm, word).ok()
}
