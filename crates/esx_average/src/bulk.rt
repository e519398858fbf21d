//! Revoking many pages at once: those that cost more than a limit.
//!
//! A row's page costs the price of all pages that the row has with it, over the row's weight: what a ratio
//! counts turned over. So pages are revoked in order of cost, the dearest first, and rows that stop at one limit
//! revoke what a page after a page would.

ghost use Rattle.std.specs.Prelude.{◌≡◌, ℕ, ◌*◌, ◌≤◌, ◌<◌, length, slice_index};
ghost use Rattle.esx_formulas.specs.Ratio.{IsRow, AreRows, row_at};
ghost use Rattle.esx_average.specs.Bulk.{kept, dearer, WereRevoked};

use crate::limit::{HIGHEST, find_limit};
use crate::revoke::ALL_PAGES;
use esx_formulas::Row;
use esx_formulas::ratio::{price, weight};
use esx_types::{MAX_PAGES, VM_NUMBERS};

/// Where chunks take at most so many steps, nothing is revoked in bulk: a step looks at every row once, and the
/// search for a limit, with two divisions for each row, can take as long as some forty steps.
const FEW_STEPS: u32 = 56;

/// A limit is told in parts of a price over a weight, so that one step of it moves few pages.
pub(crate) const PARTS: u64 = 128;

/// Revokes pages where `left` are to be revoked, and tells how many it did: none, or all that cost more
/// than some limit, which are at most `left`.
///
/// Where it would take few steps to revoke the pages in chunks, it revokes none. Most often fewer pages are
/// left to revoke after it than there are rows.
pub fn revoke_in_bulk(rows: &[Row], targets: &mut Vec<u32>, left: u32) -> u32
    requires rows { AreRows rows.now }
    requires count { length targets.old.items ≡ length rows.now }
    requires most { (i : ℕ) → i < length targets.old.items → slice_index targets.old.items i ≤ MAX_PAGES }
    requires left { left ≤ ALL_PAGES }
    ensures few { result ≤ left }
    ensures none { result ≡ 0 → targets.new.items ≡ targets.old.items }
    ensures some { 0 < result → WereRevoked rows.now targets.old.items targets.new.items result }
{
    if chunk_steps(rows.len(), left) <= FEW_STEPS {
        return 0;
    }
    let limit = find_limit(rows, targets.as_slice(), left);
    let mut keeps = [0; VM_NUMBERS];
    let pages = count_dearer(rows, targets.as_slice(), limit, &mut keeps);
    if pages == 0 || left < pages {
        return 0;
    }
    keep(rows, targets, &keeps);
    pages
}

/// About how many steps it takes to revoke so many pages in chunks, mostly a few fewer: at each size of a chunk
/// below the largest there is about one for each row, whichever row pays.
fn chunk_steps(rows: usize, left: u32) -> u32
    requires { rows ≤ VM_NUMBERS }
{
    let rows = rows as u32;
    let sizes = u32::BITS - (left / rows.max(1)).leading_zeros();
    left.min(rows * sizes)
}

/// How many pages a row keeps, where it has so many, and those that cost more than a limit are revoked.
///
/// Where the pages cost more than the limit, what they may cost is below 2^64.
fn kept(row: &Row, pages: u32, limit: u64) -> u32
    requires row { IsRow row.now }
    requires pages { pages ≤ MAX_PAGES }
    requires limit { limit ≤ HIGHEST }
    ensures value { result ≡ kept row.now limit pages }
    ensures most { result ≤ pages }
{
    let page = price(row) * PARTS;
    let most = u128::from(weight(row)) * u128::from(limit);
    if pages <= row.floor || u128::from(u64::from(pages) * page) <= most {
        return pages;
    }
    let cheap = most as u64 / page;
    cheap.max(u64::from(row.floor)) as u32
}

/// How many pages above the floors cost more than a limit, and what each row keeps without them.
fn count_dearer(rows: &[Row], targets: &[u32], limit: u64, keeps: &mut [u32; VM_NUMBERS]) -> u32
    requires rows { AreRows rows.now }
    requires count { length targets.now ≡ length rows.now }
    requires most { (i : ℕ) → i < length targets.now → slice_index targets.now i ≤ MAX_PAGES }
    requires limit { limit ≤ HIGHEST }
    ensures value { result ≡ dearer rows.now limit targets.now }
    ensures most { result ≤ ALL_PAGES }
    ensures each { (i : ℕ) → i < length rows.now → slice_index keeps.new i ≡ kept (row_at rows.now i) limit (slice_index targets.now i) }
{
    let mut count = 0;
    for (i, row) in rows.iter().enumerate() {
        let pages = targets[i];
        let stays = kept(row, pages, limit);
        keeps[i] = stays;
        count += pages - stays;
    }
    count
}

/// Each row keeps so many pages.
fn keep(rows: &[Row], targets: &mut Vec<u32>, keeps: &[u32; VM_NUMBERS])
    requires rows { AreRows rows.now }
    requires count { length targets.old.items ≡ length rows.now }
    ensures count { length targets.new.items ≡ length rows.now }
    ensures each { (i : ℕ) → i < length rows.now → slice_index targets.new.items i ≡ slice_index keeps.now i }
{
    for i in 0..rows.len() {
        targets[i] = keeps[i];
    }
}
