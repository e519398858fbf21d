//! The targets of virtual machines, where frames are needed.

ghost use Rattle.std.specs.Prelude.{◌≡◌, ℕ, ◌-◌, ◌^◌, ◌≤◌, ◌<◌, IfOk, length, map, sum_by, slice_index};
ghost use Rattle.esx_formulas.specs.Ratio.{AreRows};
ghost use Rattle.esx_formulas.specs.Targets.{spare, AreTargets, targets_of};
ghost use Rattle.esx_formulas.specs.Payers.{IsBestBelow};

use crate::bulk::revoke_in_bulk;
use esx_formulas::Row;
use esx_formulas::ratio::comes_no_later_at;
use esx_formulas::targets::held;
use esx_types::{MAX_PAGES, VM_NUMBERS};
use std::alloc::{AllocError, Global};

/// The most pages that all rows have together.
pub(crate) const ALL_PAGES: u32 = VM_NUMBERS as u32 * MAX_PAGES;

/// The target of each row where `need` pages are needed.
///
/// As many pages are revoked as are needed and stand above the floors, each from the row of least ratio
/// at what it then has. The rows stand in order of machine, and a target lies between a row's floor and
/// its pages, or is its floor where it has less.
///
/// Where many pages are needed, most are revoked in bulk first. The others are revoked in chunks of
/// `MAX_PAGES` down to 1. Where more are left than one page less than a chunk of each row, a whole chunk comes from the
/// row whose last page of a chunk comes first. So each size of a chunk takes at most one step for each row,
/// and a step looks at every row: the time grows with the square of the rows and with the logarithm of what
/// is revoked from each, and most often, after the bulk, with the rows alone.
pub fn targets(alloc: Global, rows: &[Row], need: u32) -> Result<Vec<u32>, AllocError>
    requires rows { AreRows rows.now }
    ensures fits { IfOk result (λ v. AreTargets rows.now need v.items) }
    ensures value { IfOk result (λ v. v.items ≡ targets_of rows.now need) }
{
    let mut targets = held(alloc, rows)?;
    let mut left = spare(rows).min(need);
    left -= revoke_in_bulk(rows, &mut targets, left);
    let mut chunk = MAX_PAGES;
    while left > 0 {
        if left <= rows.len() as u32 * (chunk - 1) {
            chunk /= 2;
        } else {
            let Some(payer) = next_payer(rows, targets.as_slice(), chunk - 1) else {
                unreachable!("some row has a chunk");
            };
            targets[payer] -= chunk;
            left -= chunk;
        }
    }
    Ok(targets)
}

/// How many pages stand above the floors.
fn spare(rows: &[Row]) -> u32
    requires { sum_by spare rows.now < 2 ^ 32 }
    ensures { result ≡ sum_by spare rows.now }
{
    rows.iter()
        .map(|row| row.pages.saturating_sub(row.floor))
        .sum()
}

/// The row that comes first with `less` pages fewer than its target, of those that then have some above
/// their floor.
fn next_payer(rows: &[Row], targets: &[u32], less: u32) -> Option<usize>
    requires rows { AreRows rows.now }
    requires count { length targets.now ≡ length rows.now }
    requires most { (i : ℕ) → i < length targets.now → slice_index targets.now i ≤ MAX_PAGES }
    ensures { IsBestBelow rows.now (λ i. slice_index targets.now i - less) (length rows.now) result }
{
    let mut best: Option<usize> = None;
    for (i, row) in rows.iter().enumerate() {
        let pages = targets[i].saturating_sub(less);
        if pages <= row.floor {
            continue;
        }
        match best {
            Some(b) if comes_no_later_at(&rows[b], targets[b].saturating_sub(less), row, pages) =>
                {}
            _ => best = Some(i),
        }
    }
    best
}
