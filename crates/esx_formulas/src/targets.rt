//! The targets of virtual machines, page by page.

ghost use Rattle.std.specs.Prelude.{◌≡◌, ℕ, ◌≤◌, ◌<◌, ◌↔◌, IsTrue, IfOk, length, map, slice_index};
ghost use Rattle.esx_formulas.specs.Ratio.{IsRow, AreRows};
ghost use Rattle.esx_formulas.specs.Targets.{held, AreTargets, targets_of};
ghost use Rattle.esx_formulas.specs.Payers.{IsBestBelow};

use crate::activity::WHOLE;
use crate::ratio::comes_no_later_at;
use esx_types::{MAX_PAGES, MAX_SHARES, MAX_TAU, VM_NUMBERS, VmId};
use std::alloc::{AllocError, Global};

/// What a virtual machine has, for the ratio and the targets.
///
/// `shares` is 1 to `MAX_SHARES`. `pages` is how many pages it holds and `floor` how many of them it keeps in
/// any case, each at most `MAX_PAGES`. `active` is the share of its memory that is in use, in units of
/// 1/`WHOLE`, and `tau` its tax on idle memory, at most `MAX_TAU` percent.
#[derive(Clone, Copy, Debug, PartialEq, Eq)]
pub struct Row {
    pub vm: VmId,
    pub shares: u32,
    pub pages: u32,
    pub floor: u32,
    pub active: u32,
    pub tau: u32,
}

impl Row {
    /// Is each number in its range?
    pub fn is_good(self) -> bool
        ensures { IsTrue result ↔ IsRow self }
    {
        usize::from(self.vm.number()) < VM_NUMBERS
            && 1 <= self.shares
            && self.shares <= MAX_SHARES
            && self.pages <= MAX_PAGES
            && self.floor <= MAX_PAGES
            && self.active <= WHOLE
            && self.tau <= MAX_TAU
    }
}

/// Is each row's every number in its range, and do the rows stand in order of machine?
pub fn are_rows(rows: &[Row]) -> bool
    ensures { IsTrue result ↔ AreRows rows.now }
{
    for (i, row) in rows.iter().enumerate() {
        if !row.is_good() {
            return false;
        }
        if i > 0 && row.vm <= rows[i - 1].vm {
            return false;
        }
    }
    true
}

/// The targets of rows in order of machine where `need` pages are needed. It takes as many steps as pages
/// are revoked, and in each looks at every row.
pub fn targets(alloc: Global, rows: &[Row], need: u32) -> Result<Vec<u32>, AllocError>
    requires rows { AreRows rows.now }
    ensures fits { IfOk result (λ v. AreTargets rows.now need v.items) }
    ensures value { IfOk result (λ v. v.items ≡ targets_of rows.now need) }
{
    let mut targets = held(alloc, rows)?;
    for taken in 0..need {
        match next_payer(rows, targets.as_slice()) {
            Some(payer) => targets[payer] -= 1,
            None => return Ok(targets),
        }
    }
    Ok(targets)
}

/// The pages that each row begins with.
pub fn held(alloc: Global, rows: &[Row]) -> Result<Vec<u32>, AllocError>
    ensures { IfOk result (λ v. v.items ≡ map held rows.now) }
{
    rows.iter()
        .map(|row| row.pages.max(row.floor))
        .collect(alloc)
}

/// The row that comes first of those with a target above their floor.
fn next_payer(rows: &[Row], targets: &[u32]) -> Option<usize>
    requires rows { AreRows rows.now }
    requires count { length targets.now ≡ length rows.now }
    requires most { (i : ℕ) → i < length targets.now → slice_index targets.now i ≤ MAX_PAGES }
    ensures { IsBestBelow rows.now (λ i. slice_index targets.now i) (length rows.now) result }
{
    let mut best: Option<usize> = None;
    for (i, row) in rows.iter().enumerate() {
        if targets[i] <= row.floor {
            continue;
        }
        match best {
            Some(b) if comes_no_later_at(&rows[b], targets[b], row, targets[i]) => {}
            _ => best = Some(i),
        }
    }
    best
}
