//! The book, copied from the tables.

ghost use Rattle.std.specs.Prelude.{◌≡◌, IfOk, map, option_map};
ghost use Rattle.esx_model.specs.Tables.{read_place, read_vm, book_from};

use crate::tables::SiteTables;
use crate::vm_table::VmTable;
use esx_frames::FrameTable;
use esx_model::{Book, PeriodRow, VmRow};
use esx_swap::Slots;
use esx_types::{FrameRow, Level, MapRow, Rows, SlotRow};
use std::alloc::{AllocError, Global};

fn copy_frame(row: &FrameRow) -> Result<FrameRow, AllocError>
    ensures { IfOk result (λ copy. copy ≡ row.now) }
{
    match row {
        FrameRow::Free => Ok(FrameRow::Free),
        FrameRow::Overhead => Ok(FrameRow::Overhead),
        FrameRow::Private { bytes } => Ok(FrameRow::Private {
            bytes: bytes.copy()?,
        }),
        FrameRow::Shared { count, bytes } => Ok(FrameRow::Shared {
            count: *count,
            bytes: bytes.copy()?,
        }),
    }
}

fn copy_frames(alloc: Global, frames: &FrameTable) -> Result<Rows<FrameRow>, AllocError>
    ensures { IfOk result (λ copy. copy ≡ frames.now) }
{
    let mut copy = Vec::with_capacity(alloc, frames.len() as usize)?;
    for frame in 0..frames.len() {
        let row = frames.get(frame).unwrap();
        copy.push(copy_frame(row)?)?;
    }
    Ok(Rows::from_vec(copy))
}

fn copy_slot(row: &SlotRow) -> Result<SlotRow, AllocError>
    ensures { IfOk result (λ copy. copy ≡ row.now) }
{
    match row {
        SlotRow::Free => Ok(SlotRow::Free),
        SlotRow::Held { bytes } => Ok(SlotRow::Held {
            bytes: bytes.copy()?,
        }),
    }
}

fn copy_slots(alloc: Global, slots: &Slots) -> Result<Rows<SlotRow>, AllocError>
    ensures { IfOk result (λ copy. copy ≡ slots.now) }
{
    let mut copy = Vec::with_capacity(alloc, slots.len() as usize)?;
    for slot in 0..slots.len() {
        let row = slots.get(slot).unwrap();
        copy.push(copy_slot(row)?)?;
    }
    Ok(Rows::from_vec(copy))
}

/// A copy of rows that are copied bit by bit.
fn copy_rows<T: Copy>(alloc: Global, rows: &[T]) -> Result<Rows<T>, AllocError>
    ensures { IfOk result (λ copy. copy ≡ rows.now) }
{
    Ok(Rows::from_vec(Vec::from_slice(alloc, rows)?))
}

/// The row of a page in an epoch: a loan of an epoch that is over counts as untouched.
fn row_in(row: MapRow, epoch: u32) -> MapRow
    ensures { result ≡ read_place epoch row }
{
    match row {
        MapRow::Lent { epoch: lent } if lent != epoch => MapRow::Untouched,
        _ => row,
    }
}

/// The rows of a machine's pages in an epoch.
fn copy_pages(alloc: Global, vm: &VmTable, epoch: u32) -> Result<Rows<MapRow>, AllocError>
    ensures { IfOk result (λ copy. copy ≡ map (read_place epoch) vm.now.pages) }
{
    let mut copy = Vec::with_capacity(alloc, vm.page_count() as usize)?;
    for page in 0..vm.page_count() {
        copy.push(row_in(vm.page(page), epoch))?;
    }
    Ok(Rows::from_vec(copy))
}

fn copy_period(alloc: Global, period: &Option<PeriodRow>) -> Result<Option<PeriodRow>, AllocError>
    ensures { IfOk result (λ copy. copy ≡ period.now) }
{
    match period {
        None => Ok(None),
        Some(period) => Ok(Some(PeriodRow {
            length: period.length,
            done: period.done,
            marks: copy_rows(alloc, period.marks.as_slice())?,
        })),
    }
}

fn copy_row(alloc: Global, vm: &VmTable) -> Result<VmRow, AllocError>
    ensures { IfOk result (λ copy. copy ≡ read_vm vm.now) }
{
    let facts = vm.facts();
    let averages = vm.averages();
    Ok(VmRow {
        spec: vm.spec(),
        state: facts.state,
        epoch: facts.epoch,
        due: facts.due,
        target: facts.target,
        overhead: copy_rows(alloc, vm.overhead())?,
        pages: copy_pages(alloc, vm, facts.epoch)?,
        slow: averages.slow(),
        fast: averages.fast(),
        period: copy_period(alloc, vm.period())?,
    })
}

fn copy_vm(alloc: Global, vm: &Option<VmTable>) -> Result<Option<VmRow>, AllocError>
    ensures { IfOk result (λ copy. copy ≡ option_map read_vm vm.now) }
{
    match vm {
        None => Ok(None),
        Some(vm) => Ok(Some(copy_row(alloc, vm)?)),
    }
}

fn copy_vms(alloc: Global, rows: &[Option<VmTable>]) -> Result<Rows<Option<VmRow>>, AllocError>
    ensures { IfOk result (λ copy. copy ≡ map (option_map read_vm) rows.now) }
{
    let mut copy = Vec::with_capacity(alloc, rows.len())?;
    for row in rows {
        copy.push(copy_vm(alloc, row)?)?;
    }
    Ok(Rows::from_vec(copy))
}

impl SiteTables {
    /// A copy of every table, at a level. A page lent in an epoch that is over counts as untouched; hints
    /// and shared frames stand in order of key.
    pub fn book(&self, alloc: Global, level: Level) -> Result<Book, AllocError>
        ensures { IfOk result (λ book. book ≡ book_from self.now level) }
    {
        Ok(Book {
            frames: copy_frames(alloc, &self.frames)?,
            slots: copy_slots(alloc, &self.slots)?,
            vms: copy_vms(alloc, self.vms.all())?,
            hints: self.listings.hints(alloc)?,
            shared: self.listings.shared(alloc)?,
            tau: self.tau,
            level,
        })
    }
}
