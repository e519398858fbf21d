//! The search for a limit of cost, above which pages are revoked in bulk.
//!
//! If no row stopped at its floor and none kept all its pages, one division would tell the limit from the sums
//! of all rows. So this limit is tried, and what it would revoke is counted. Where it is too much, the limit is
//! higher, and the rows that keep all their pages keep them there too; where it is not, the limit is no higher,
//! and the rows that stop at their floors stop there too. Either way these are settled, and the next limit
//! comes from the sums of the others. So each try but a few settles some row.
//!
//! The search divides once for each row that has pages above its floor and once for each try, and counts by
//! products alone. Such a count is at most a page a row too high, and never too low: what a limit revokes is
//! counted again before it is done.

ghost use Rattle.std.specs.Prelude.{◌≡◌, ℕ, ◌+◌, ◌-◌, ◌*◌, ◌/◌, ◌≤◌, ◌<◌, min, max, All, IsTrue, length, slice_index};
ghost use Rattle.std.specs.List.{AllWithin};
ghost use Rattle.esx_formulas.specs.Ratio.{IsRow, AreRows, row_at};
ghost use Rattle.esx_average.specs.Bulk.{rate, IsPart, IsAbove};

use crate::bulk::PARTS;
use crate::revoke::ALL_PAGES;
use esx_formulas::Row;
use esx_formulas::activity::WHOLE;
use esx_formulas::ratio::{WHOLE_PRICE, price, weight};
use esx_types::{MAX_PAGES, MAX_SHARES, VM_NUMBERS};

/// The unit in which rates are told: the largest in which all pages of all machines but one are told in 64 bits.
const UNIT: u64 = u64::MAX / ALL_PAGES as u64 + 1;

/// The unit of a rate of one, in which a limit is told in parts.
const WHOLE_RATE: u64 = UNIT / PARTS;

/// A rate that no row exceeds: that of the greatest weight and the least price.
const MOST_RATE: u64 = 100 * MAX_SHARES as u64 * WHOLE_RATE / WHOLE as u64;

/// A limit that no page costs more than: the last of the most pages, at the greatest price and a weight of one.
pub(crate) const HIGHEST: u64 = MAX_PAGES as u64 * WHOLE_PRICE * PARTS;

/// How many limits are tried at most: two for each row that they settle.
const MOST_TRIES: usize = 2 * VM_NUMBERS;

/// What the search looks at of a row that is not settled.
#[derive(Clone, Copy)]
pub(crate) struct Part {
    rate: u64,
    pages: u32,
    floor: u32,
}

/// No row's part.
const NO_PART: Part = Part {
    rate: 0,
    pages: 0,
    floor: 0,
};

/// The pages of some rows and their rates, each added up.
#[derive(Clone, Copy)]
struct Sums {
    pages: u32,
    rate: u64,
}

/// How many of a row's pages cost no more than a limit of one, in units of 1/`UNIT`, rounded down.
fn rate(row: &Row) -> u64
    requires row { IsRow row.now }
    ensures value { result ≡ rate row.now }
    ensures most { result ≤ MOST_RATE }
{
    u64::from(weight(row)) * WHOLE_RATE / price(row)
}

/// The parts of the rows that have pages above their floors, in front, and how many they are. Rows at their
/// least can revoke nothing, and are left out.
fn open_parts(rows: &[Row], targets: &[u32], parts: &mut [Part; VM_NUMBERS]) -> usize
    requires rows { AreRows rows.now }
    requires count { length targets.now ≡ length rows.now }
    requires most { (i : ℕ) → i < length targets.now → slice_index targets.now i ≤ MAX_PAGES }
    requires parts { All IsPart parts.old }
    ensures few { result ≤ length rows.now }
    ensures parts { All IsPart parts.new }
    ensures above { AllWithin IsAbove parts.new 0 result }
{
    let mut count = 0;
    for (i, row) in rows.iter().enumerate() {
        let pages = targets[i];
        if row.floor < pages {
            parts[count] = Part {
                rate: rate(row),
                pages,
                floor: row.floor,
            };
            count += 1;
        }
    }
    count
}

/// The pages of rows and their rates, each added up.
fn sums_of(parts: &[Part]) -> Sums
    requires parts { All IsPart parts.now }
    requires few { length parts.now ≤ VM_NUMBERS }
    ensures pages { result.pages ≤ ALL_PAGES }
    ensures rate { result.rate ≤ VM_NUMBERS * MOST_RATE }
{
    let mut sums = Sums { pages: 0, rate: 0 };
    for i in 0..parts.len() {
        let part = parts[i];
        sums.pages += part.pages;
        sums.rate += part.rate;
    }
    sums
}

/// The limit at which rows would keep all but so many pages, each its share, rounded up.
fn limit_of(sums: &Sums, pages: u32) -> u64
    requires pages { sums.now.pages ≤ ALL_PAGES }
    requires rate { 0 < sums.now.rate }
    requires some { 1 ≤ pages }
    ensures value { result ≡ min ((sums.now.pages - pages) * UNIT / sums.now.rate + 1) HIGHEST }
    ensures most { result ≤ HIGHEST }
{
    let kept = u64::from(sums.pages.saturating_sub(pages));
    (kept * UNIT / sums.rate + 1).min(HIGHEST)
}

/// About how many pages a row keeps, where those that cost more than a limit are revoked: rounded down.
fn kept_about(part: &Part, limit: u64) -> u32
    requires part { IsPart part.now }
    requires limit { limit ≤ HIGHEST }
    ensures value { result ≡ min part.now.pages (max (limit * part.now.rate / UNIT) part.now.floor) }
    ensures most { result ≤ part.now.pages }
{
    let cheap = (u128::from(limit) * u128::from(part.rate) / u128::from(UNIT)) as u64;
    u64::from(part.pages).min(cheap.max(u64::from(part.floor))) as u32
}

/// About how many pages above the floors cost more than a limit, rounded up.
fn count_about(parts: &[Part], limit: u64) -> u32
    requires parts { All IsPart parts.now }
    requires few { length parts.now ≤ VM_NUMBERS }
    requires limit { limit ≤ HIGHEST }
    ensures { result ≤ ALL_PAGES }
{
    let mut count = 0;
    for i in 0..parts.len() {
        let part = parts[i];
        count += part.pages - kept_about(&part, limit);
    }
    count
}

/// How many pages stand above the floors.
fn count_above_floors(rows: &[Row], targets: &[u32]) -> u32
    requires rows { AreRows rows.now }
    requires count { length targets.now ≡ length rows.now }
    requires most { (i : ℕ) → i < length targets.now → slice_index targets.now i ≤ MAX_PAGES }
    ensures { result ≤ ALL_PAGES }
{
    let mut count = 0;
    for (i, row) in rows.iter().enumerate() {
        count += targets[i].saturating_sub(row.floor);
    }
    count
}

/// Settles of the parts in front those that stop at their floors at a limit, or those that keep all their
/// pages. The others come to the front: it tells how many they are, and how many pages the settled ones revoke.
fn settle(parts: &mut [Part; VM_NUMBERS], count: usize, limit: u64, at_floors: bool) -> (usize, u32)
    requires parts { All IsPart parts.old }
    requires count { count ≤ VM_NUMBERS }
    requires limit { limit ≤ HIGHEST }
    ensures parts { All IsPart parts.new }
    ensures few { result.0 ≤ count }
{
    let mut open = 0;
    let mut revoked = 0;
    for i in 0..count {
        let part = parts[i];
        let kept = kept_about(&part, limit);
        parts[open] = part;
        if kept == if at_floors { part.floor } else { part.pages } {
            revoked += part.pages - kept;
        } else {
            open += 1;
        }
    }
    (open, revoked)
}

/// A limit that `left` pages or a few less cost more than, mostly.
///
/// It aims somewhat below what is left, since a count is rounded up, and lower where this was not enough.
pub(crate) fn find_limit(rows: &[Row], targets: &[u32], left: u32) -> u64
    requires rows { AreRows rows.now }
    requires count { length targets.now ≡ length rows.now }
    requires most { (i : ℕ) → i < length targets.now → slice_index targets.now i ≤ MAX_PAGES }
    requires left { left ≤ ALL_PAGES }
    ensures { result ≤ HIGHEST }
{
    if count_above_floors(rows, targets) <= left {
        return 0;
    }
    let mut parts = [NO_PART; VM_NUMBERS];
    let mut count = open_parts(rows, targets, &mut parts);
    let mut left = left;
    let mut found = HIGHEST;
    let mut stuck = false;
    for _ in 0..MOST_TRIES {
        let sums = sums_of(&parts[..count]);
        if sums.rate == 0 {
            return found;
        }
        let open = count as u32;
        let margin = if stuck { open } else { open * 5 / 8 };
        let limit = limit_of(&sums, left.saturating_sub(margin).max(1));
        let above = count_about(&parts[..count], limit);
        let fits = above <= left;
        if fits {
            found = limit;
            if left - above <= rows.len() as u32 / 4 {
                return found;
            }
        }
        let (still_open, revoked) = settle(&mut parts, count, limit, fits);
        let settled = still_open < count;
        if !settled && (fits || stuck) {
            return found;
        }
        stuck = !settled;
        count = still_open;
        left = left.saturating_sub(revoked);
    }
    found
}
