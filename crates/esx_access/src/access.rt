//! A guest reads or writes one of its pages.

ghost use Rattle.std.specs.Prelude.{◌≡◌, ◌<◌, ◌≤◌, ◌+◌, ◌^◌, ◌++◌, ◌∷◌, [], length, map, take, drop, replicate, OnOk, IfOk, None};
ghost use Rattle.esx_types.specs.Pages.{page_at};
ghost use Rattle.esx_types.specs.Frames.{frame_at};
ghost use Rattle.esx_types.specs.declared.table.MapRow.TheVariants.{Here, Out};
ghost use Rattle.esx_tables.specs.declared.change.Change.TheVariants.{BytesAt, OfVm};
ghost use Rattle.esx_model.specs.Tables.{standing_of};
ghost use Rattle.esx_model.specs.event.Outcome.{first};
ghost use Rattle.esx_model.specs.event.Access.{access_gate, overwritten};
ghost use Rattle.esx_changes.specs.Planned.{Plans};
ghost use Rattle.esx_changes.specs.Counted.{IsOpenOf, ArePeriodsOpen};
ghost use Rattle.esx_access.specs.Access.{popped_parts, come_changes, told, read_zeros, read_slot, read_frame, read_plan, write_zeros, write_slot, write_own, write_copy, write_last, write_frame, write_plan};

use esx_changes::Plan;
use esx_changes::counted::{push_counted, push_part, room};
use esx_events::{Answer, Refusal};
use esx_frames::Mark;
use esx_tables::{Change, Facts, Record, SiteTables, VmPart, VmTable};
use esx_types::{Bytes, Config, FrameRow, Level, Listing, MapRow, SmallBytes, VmId, VmState};
use std::alloc::{AllocError, Global};

/// Why an access is refused, before a frame is looked for.
fn access_gate(
    config: &Config,
    level: Level,
    row: &VmTable,
    page: u32,
    at: u32,
    len: usize,
) -> Option<Refusal>
    requires { len < 2 ^ 63 }
    ensures refusal { result ≡ first (access_gate config.now level (standing_of row.now) page at len) }
    ensures fits { result ≡ None → at + len ≤ config.now.page }
{
    let standing = row.standing();
    if standing.state != VmState::Running {
        return Some(Refusal::NotRunning);
    }
    if standing.spec.max <= page || len == 0 || (config.page as usize) < at as usize + len {
        return Some(Refusal::OutOfRange);
    }
    if level == Level::Low && standing.target < standing.resident {
        return Some(Refusal::Held);
    }
    None
}

fn front(bytes: &[u8], len: usize) -> &[u8]
    ensures { result.now ≡ take len bytes.now }
{
    if len < bytes.len() {
        &bytes[..len]
    } else {
        bytes
    }
}

fn back(bytes: &[u8], from: usize) -> &[u8]
    ensures { result.now ≡ drop from bytes.now }
{
    if from < bytes.len() {
        &bytes[from..]
    } else {
        &[]
    }
}

/// Some of a page's bytes.
fn told(alloc: Global, bytes: &[u8], at: u32, len: u32) -> Result<Answer, AllocError>
    ensures { IfOk result (λ answer. answer ≡ told at len bytes.now) }
{
    let part = front(back(bytes, at as usize), len as usize);
    Ok(Answer::Bytes {
        bytes: SmallBytes::copy_of(alloc, part)?,
    })
}

/// A copy with some bytes written over.
fn overwritten(alloc: Global, old: &[u8], at: usize, new: &[u8]) -> Result<Bytes, AllocError>
    requires { at + length new.now < 2 ^ 64 }
    ensures { IfOk result (λ bytes. bytes ≡ overwritten old.now at new.now) }
{
    let mut bytes = Vec::with_capacity(alloc, old.len())?;
    bytes.extend_from_slice(front(old, at))?;
    bytes.extend_from_slice(new)?;
    bytes.extend_from_slice(back(old, at + new.len()))?;
    Ok(Bytes::from_vec(bytes))
}

/// Zeros with some bytes written over.
fn zeros_overwritten(alloc: Global, page: usize, at: usize, new: &[u8]) -> Result<Bytes, AllocError>
    requires { at + length new.now ≤ page }
    ensures { IfOk result (λ bytes. bytes ≡ overwritten (replicate page 0) at new.now) }
{
    let mut bytes = vec![in alloc; 0u8; page]?;
    bytes[at..at + new.len()].copy_from_slice(new);
    Ok(Bytes::from_vec(bytes))
}

/// A page that is lent now pops the balloon.
pub fn push_popped(
    changes: &mut Vec<Change>,
    vm: VmId,
    row: &VmTable,
    place: MapRow,
) -> Result<(), AllocError>
    ensures { OnOk result (changes.new.items ≡ changes.old.items ++ map (OfVm vm) (popped_parts row.now place)) }
{
    if let MapRow::Lent { epoch } = place {
        let facts = row.facts();
        let facts = Facts {
            due: facts.due || epoch == facts.epoch,
            ..facts
        };
        push_part(changes, vm, VmPart::Facts { facts })?;
    }
    Ok(())
}

/// A page comes to a frame, and the access is counted.
fn push_come(
    changes: &mut Vec<Change>,
    vm: VmId,
    row: &VmTable,
    page: u32,
    frame: u32,
) -> Result<(), AllocError>
    requires { IsOpenOf row.now }
    ensures { OnOk result (changes.new.items ≡ changes.old.items ++ come_changes vm row.now page (page_at row.now.pages page) frame) }
{
    let here = MapRow::Here { frame };
    push_part(changes, vm, VmPart::PageAt { page, row: here })?;
    push_popped(changes, vm, row, row.page(page))?;
    push_counted(changes, vm, row, page)
}

/// A page that nobody has written comes to a frame as zeros, and is read.
fn read_zeros(
    alloc: Global,
    config: &Config,
    vm: VmId,
    row: &VmTable,
    page: u32,
    at: u32,
    len: u32,
    frame: u32,
) -> Result<Plan, AllocError>
    requires { IsOpenOf row.now }
    ensures { IfOk result (λ plan. (plan.answer, plan.changes) ≡ read_zeros config.now vm row.now page at len (page_at row.now.pages page) frame) }
{
    let bytes = Bytes::zeros(alloc, config.page as usize)?;
    let answer = told(alloc, bytes.as_slice(), at, len)?;
    let mut changes = room(alloc, row, page, 3)?;
    let page_row = FrameRow::Private { bytes };
    changes.push(Change::FrameAt {
        frame,
        row: page_row,
    })?;
    push_come(&mut changes, vm, row, page, frame)?;
    let changes = Record::of(changes);
    Ok(Plan { answer, changes })
}

/// A page comes from its slot to a frame, and is read.
fn read_slot(
    tables: &SiteTables,
    alloc: Global,
    vm: VmId,
    row: &VmTable,
    page: u32,
    at: u32,
    len: u32,
    slot: u32,
    frame: u32,
) -> Result<Plan, AllocError>
    requires period { IsOpenOf row.now }
    requires out { page_at row.now.pages page ≡ Out slot }
    ensures { IfOk result (λ plan. (plan.answer, plan.changes) ≡ read_slot tables.now vm row.now page at len slot frame) }
{
    let answer = told(alloc, tables.held(slot), at, len)?;
    let mut changes = room(alloc, row, page, 2)?;
    changes.push(Change::FrameWithSlot { frame, slot })?;
    push_come(&mut changes, vm, row, page, frame)?;
    let changes = Record::of(changes);
    Ok(Plan { answer, changes })
}

/// A page is read in its frame.
fn read_frame(
    tables: &SiteTables,
    alloc: Global,
    vm: VmId,
    row: &VmTable,
    page: u32,
    at: u32,
    len: u32,
    frame: u32,
) -> Result<Plan, AllocError>
    requires { IsOpenOf row.now }
    ensures { IfOk result (λ plan. (plan.answer, plan.changes) ≡ read_frame tables.now vm row.now page at len frame) }
{
    let answer = told(alloc, tables.bytes(frame), at, len)?;
    let mut changes = room(alloc, row, page, 0)?;
    push_counted(&mut changes, vm, row, page)?;
    let changes = Record::of(changes);
    Ok(Plan { answer, changes })
}

/// Reads some bytes of a page. One that is in no frame comes to the least that is free.
#[tactic(auto, unfolding(crate::specs::Access::read_plan))]
pub fn plan_read(
    tables: &SiteTables,
    alloc: Global,
    config: &Config,
    level: Level,
    vm: VmId,
    page: u32,
    at: u32,
    len: u32,
) -> Result<Plan, Refusal>
    requires { ArePeriodsOpen tables.now }
    ensures { Plans result (read_plan config.now tables.now level vm page at len) }
{
    let Some(row) = tables.vm(vm) else {
        return Err(Refusal::NoVm);
    };
    if let Some(refusal) = access_gate(config, level, row, page, at, len as usize) {
        return Err(refusal);
    }
    let place = row.page(page);
    if let MapRow::Here { frame } = place {
        let plan = read_frame(tables, alloc, vm, row, page, at, len, frame)?;
        return Ok(plan);
    }
    let Some(frame) = tables.least_frame() else {
        return Err(Refusal::Short);
    };
    if let MapRow::Out { slot } = place {
        let plan = read_slot(tables, alloc, vm, row, page, at, len, slot, frame)?;
        return Ok(plan);
    }
    let plan = read_zeros(alloc, config, vm, row, page, at, len, frame)?;
    Ok(plan)
}

/// A page that nobody has written comes to a frame as zeros, and is written.
fn write_zeros(
    alloc: Global,
    config: &Config,
    vm: VmId,
    row: &VmTable,
    page: u32,
    at: u32,
    new: &[u8],
    frame: u32,
) -> Result<Plan, AllocError>
    requires period { IsOpenOf row.now }
    requires fits { at + length new.now ≤ config.now.page }
    ensures { IfOk result (λ plan. (plan.answer, plan.changes) ≡ write_zeros config.now vm row.now page at new.now (page_at row.now.pages page) frame) }
{
    let mut changes = room(alloc, row, page, 3)?;
    let bytes = zeros_overwritten(alloc, config.page as usize, at as usize, new)?;
    let page_row = FrameRow::Private { bytes };
    changes.push(Change::FrameAt {
        frame,
        row: page_row,
    })?;
    push_come(&mut changes, vm, row, page, frame)?;
    Ok(Plan {
        answer: Answer::Done,
        changes: Record::of(changes),
    })
}

/// Bytes of a page, from byte `at` on.
fn push_bytes(
    changes: &mut Vec<Change>,
    alloc: Global,
    frame: u32,
    at: u32,
    new: &[u8],
) -> Result<(), AllocError>
    ensures { OnOk result (changes.new.items ≡ changes.old.items ++ BytesAt frame at new.now ∷ []) }
{
    let bytes = SmallBytes::copy_of(alloc, new)?;
    changes.push(Change::BytesAt {
        frame,
        offset: at,
        bytes,
    })?;
    Ok(())
}

/// A page comes from its slot to a frame, and is written.
fn write_slot(
    alloc: Global,
    vm: VmId,
    row: &VmTable,
    page: u32,
    at: u32,
    new: &[u8],
    slot: u32,
    frame: u32,
) -> Result<Plan, AllocError>
    requires period { IsOpenOf row.now }
    requires out { page_at row.now.pages page ≡ Out slot }
    ensures { IfOk result (λ plan. (plan.answer, plan.changes) ≡ write_slot vm row.now page at new.now slot frame) }
{
    let mut changes = room(alloc, row, page, 3)?;
    changes.push(Change::FrameWithSlot { frame, slot })?;
    push_bytes(&mut changes, alloc, frame, at, new)?;
    push_come(&mut changes, vm, row, page, frame)?;
    Ok(Plan {
        answer: Answer::Done,
        changes: Record::of(changes),
    })
}

/// A page that is alone in its frame is written there.
fn write_own(
    alloc: Global,
    vm: VmId,
    row: &VmTable,
    page: u32,
    at: u32,
    new: &[u8],
    frame: u32,
) -> Result<Plan, AllocError>
    requires { IsOpenOf row.now }
    ensures { IfOk result (λ plan. (plan.answer, plan.changes) ≡ write_own vm row.now page at new.now frame) }
{
    let mut changes = room(alloc, row, page, 1)?;
    push_bytes(&mut changes, alloc, frame, at, new)?;
    push_counted(&mut changes, vm, row, page)?;
    Ok(Plan {
        answer: Answer::Done,
        changes: Record::of(changes),
    })
}

/// A page leaves the frame that it shares with others, and a copy of it that is written stands in another frame.
fn write_copy(
    alloc: Global,
    vm: VmId,
    row: &VmTable,
    page: u32,
    at: u32,
    new: &[u8],
    shared: u32,
    count: u32,
    old: &[u8],
    frame: u32,
) -> Result<Plan, AllocError>
    requires period { IsOpenOf row.now }
    requires here { page_at row.now.pages page ≡ Here shared }
    requires many { 1 < count }
    requires fits { at + length new.now < 2 ^ 64 }
    ensures { IfOk result (λ plan. (plan.answer, plan.changes) ≡ write_copy vm row.now page at new.now shared count old.now frame) }
{
    let mut changes = room(alloc, row, page, 4)?;
    changes.push(Change::MarkAt {
        frame: shared,
        mark: Mark::Shared { count: count - 1 },
    })?;
    let bytes = overwritten(alloc, old, at as usize, new)?;
    let page_row = FrameRow::Private { bytes };
    changes.push(Change::FrameAt {
        frame,
        row: page_row,
    })?;
    push_come(&mut changes, vm, row, page, frame)?;
    Ok(Plan {
        answer: Answer::Done,
        changes: Record::of(changes),
    })
}

/// The last page of a shared frame is written there, and has the frame for itself.
fn write_last(
    alloc: Global,
    vm: VmId,
    row: &VmTable,
    page: u32,
    at: u32,
    new: &[u8],
    frame: u32,
) -> Result<Plan, AllocError>
    requires { IsOpenOf row.now }
    ensures { IfOk result (λ plan. (plan.answer, plan.changes) ≡ write_last vm row.now page at new.now frame) }
{
    let mut changes = room(alloc, row, page, 3)?;
    changes.push(Change::MarkAt {
        frame,
        mark: Mark::Private,
    })?;
    changes.push(Change::ListingAt {
        frame,
        listing: Listing::Unlisted,
    })?;
    push_bytes(&mut changes, alloc, frame, at, new)?;
    push_counted(&mut changes, vm, row, page)?;
    Ok(Plan {
        answer: Answer::Done,
        changes: Record::of(changes),
    })
}

/// A page that is in a frame is written: there, if it is alone in it, and else in a copy.
fn write_here(
    tables: &SiteTables,
    alloc: Global,
    vm: VmId,
    row: &VmTable,
    page: u32,
    at: u32,
    new: &[u8],
    frame: u32,
) -> Result<Plan, Refusal>
    requires period { IsOpenOf row.now }
    requires here { page_at row.now.pages page ≡ Here frame }
    requires fits { at + length new.now < 2 ^ 64 }
    ensures { Plans result (write_frame tables.now vm row.now page at new.now frame (frame_at tables.now.frames frame)) }
{
    match tables.frame(frame) {
        Some(FrameRow::Private { .. }) => {
            let plan = write_own(alloc, vm, row, page, at, new, frame)?;
            Ok(plan)
        }
        Some(FrameRow::Shared { count, .. }) if *count <= 1 => {
            let plan = write_last(alloc, vm, row, page, at, new, frame)?;
            Ok(plan)
        }
        Some(FrameRow::Shared { count, bytes }) => {
            let Some(free) = tables.least_frame() else {
                return Err(Refusal::Short);
            };
            let old = bytes.as_slice();
            let plan = write_copy(alloc, vm, row, page, at, new, frame, *count, old, free)?;
            Ok(plan)
        }
        Some(FrameRow::Free) => Err(Refusal::Short),
        Some(FrameRow::Overhead) => Err(Refusal::Short),
        None => Err(Refusal::Short),
    }
}

/// Writes some bytes of a page. A frame that other pages share is not written.
#[tactic(auto, unfolding(crate::specs::Access::write_plan))]
pub fn plan_write(
    tables: &SiteTables,
    alloc: Global,
    config: &Config,
    level: Level,
    vm: VmId,
    page: u32,
    at: u32,
    new: &[u8],
) -> Result<Plan, Refusal>
    requires { ArePeriodsOpen tables.now }
    ensures { Plans result (write_plan config.now tables.now level vm page at new.now) }
{
    let Some(row) = tables.vm(vm) else {
        return Err(Refusal::NoVm);
    };
    if let Some(refusal) = access_gate(config, level, row, page, at, new.len()) {
        return Err(refusal);
    }
    let place = row.page(page);
    if let MapRow::Here { frame } = place {
        return write_here(tables, alloc, vm, row, page, at, new, frame);
    }
    let Some(frame) = tables.least_frame() else {
        return Err(Refusal::Short);
    };
    if let MapRow::Out { slot } = place {
        let plan = write_slot(alloc, vm, row, page, at, new, slot, frame)?;
        return Ok(plan);
    }
    let plan = write_zeros(alloc, config, vm, row, page, at, new, frame)?;
    Ok(plan)
}
