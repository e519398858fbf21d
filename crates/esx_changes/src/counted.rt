//! What an access changes of its machine's row where a sample period is open.

ghost use Rattle.std.specs.Prelude.{◌≡◌, ◌≤◌, ◌<◌, ◌+◌, ◌++◌, ◌∷◌, [], length, map, count_by, vec_capacity, OnOk, IfOk, Some};
ghost use Rattle.esx_types.specs.declared.config.TheConstants.{MAX_SAMPLE};
ghost use Rattle.esx_tables.specs.declared.change.Change.TheVariants.{OfVm};
ghost use Rattle.esx_average.specs.Means.{Means};
ghost use Rattle.esx_tables.specs.Sampled.{marks_of};
ghost use Rattle.esx_changes.specs.Counted.{is_first, is_touched_by, turned_from, period_parts, counted_parts, AreNear, IsOpen, IsOpenOf};

use esx_events::Boxed;
use esx_model::{Mark, PeriodRow};
use esx_tables::{Change, VmPart, VmTable};
use esx_types::VmId;
use std::alloc::{AllocError, Global};

/// Does the mark name the page, which was not accessed before?
fn is_first(page: u32, mark: &Mark) -> bool
    ensures { result ≡ is_first page mark.now }
{
    page == mark.page && !mark.touched
}

fn first_count(page: u32, marks: &[Mark]) -> usize
    ensures { result ≡ count_by (is_first page) marks.now }
{
    marks.iter().filter(|mark| is_first(page, mark)).count()
}

/// The marks of the open period, if there is one.
fn marks_of(period: &Option<PeriodRow>) -> &[Mark]
    ensures { result.now ≡ marks_of period.now }
{
    match period {
        None => &[],
        Some(period) => period.marks.as_slice(),
    }
}

/// The marks of the open period, where one of them may name the page; else none.
fn near_marks(row: &VmTable, page: u32) -> &[Mark]
    ensures { AreNear page result.now (marks_of row.now.period) }
{
    if row.may_sample(page) {
        marks_of(row.period())
    } else {
        &[]
    }
}

/// How many sampled pages were accessed, with this access.
fn touched_count(row: &VmTable, page: u32) -> u32
    requires { length (marks_of row.now.period) ≤ MAX_SAMPLE }
    ensures value { result ≡ count_by (is_touched_by page) (marks_of row.now.period) }
    ensures most { result ≤ length (marks_of row.now.period) }
{
    (row.touched_marks() + first_count(page, near_marks(row, page))) as u32
}

/// How many parts of the row an access changes for an open period.
#[tactic(auto, using(crate::proofs::Turned::turned_count))]
fn open_len(page: u32, period: &PeriodRow, near: &[Mark]) -> usize
    requires open { IsOpen period.now }
    requires near { AreNear page near.now period.now.marks }
    ensures value { (m : Means) → result ≡ length (period_parts page m period.now) }
    ensures most { result ≤ 101 }
{
    let length = period.length;
    if period.done + 1 < length {
        first_count(page, near) + 1
    } else {
        2
    }
}

/// How many parts of the row an access changes to be counted.
fn counted_len(row: &VmTable, page: u32) -> usize
    requires { IsOpenOf row.now }
    ensures value { result ≡ length (counted_parts row.now page) }
    ensures most { result ≤ 101 }
{
    match row.period() {
        None => 0,
        Some(period) => open_len(page, period, near_marks(row, page)),
    }
}

/// Room for so many changes, and for those of an access that is counted.
pub fn room(
    alloc: Global,
    row: &VmTable,
    page: u32,
    others: usize,
) -> Result<Vec<Change>, AllocError>
    requires few { others < 8 }
    requires period { IsOpenOf row.now }
    ensures empty { IfOk result (λ changes. changes.items ≡ []) }
    ensures room { IfOk result (λ changes. vec_capacity changes ≡ others + length (counted_parts row.now page)) }
{
    Vec::with_capacity(alloc, others + counted_len(row, page))
}

/// One more part of a machine's row.
pub fn push_part(changes: &mut Vec<Change>, vm: VmId, part: VmPart) -> Result<(), AllocError>
    ensures { OnOk result (changes.new.items ≡ changes.old.items ++ OfVm vm part ∷ []) }
{
    changes.push(Change::OfVm { vm, part })?;
    Ok(())
}

fn push_turned(
    changes: &mut Vec<Change>,
    vm: VmId,
    page: u32,
    marks: &[Mark],
) -> Result<(), AllocError>
    requires { length marks.now ≤ MAX_SAMPLE }
    ensures { OnOk result (changes.new.items ≡ changes.old.items ++ map (OfVm vm) (turned_from 0 page marks.now)) }
{
    for (i, mark) in marks.iter().enumerate() {
        if is_first(page, mark) {
            push_part(changes, vm, VmPart::Touched { mark: i as u32 })?;
        }
    }
    Ok(())
}

/// One more access is done in an open period; the last one closes it.
fn push_open(
    changes: &mut Vec<Change>,
    vm: VmId,
    row: &VmTable,
    page: u32,
    period: &PeriodRow,
) -> Result<(), AllocError>
    requires open { IsOpen period.now }
    requires period { row.now.period ≡ Some period.now }
    ensures { OnOk result (changes.new.items ≡ changes.old.items ++ map (OfVm vm) (counted_parts row.now page)) }
{
    let length = period.length;
    let done = period.done + 1;
    if done < length {
        push_part(changes, vm, VmPart::Done { done })?;
        return push_turned(changes, vm, page, near_marks(row, page));
    }
    let touched = touched_count(row, page);
    let sampled = period.marks.len() as u32;
    let averages = row.averages().close_period(touched, sampled);
    let period = Boxed::new(*changes.allocator(), None)?;
    push_part(changes, vm, VmPart::Period { period })?;
    push_part(changes, vm, VmPart::Averages { averages })
}

/// An access is counted where a period is open.
pub fn push_counted(
    changes: &mut Vec<Change>,
    vm: VmId,
    row: &VmTable,
    page: u32,
) -> Result<(), AllocError>
    requires { IsOpenOf row.now }
    ensures { OnOk result (changes.new.items ≡ changes.old.items ++ map (OfVm vm) (counted_parts row.now page)) }
{
    match row.period() {
        None => Ok(()),
        Some(period) => push_open(changes, vm, row, page, period),
    }
}
