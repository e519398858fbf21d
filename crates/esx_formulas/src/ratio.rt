//! Which virtual machine gives up the next page.

ghost use Rattle.std.specs.Prelude.{◌≡◌, ◌-◌, ◌*◌, ◌≤◌, ◌↔◌, IsTrue, MatchOption, option_map, length};
ghost use Rattle.esx_types.specs.declared.config.TheConstants.{MAX_PAGES, MAX_SHARES, MAX_TAU};
ghost use Rattle.esx_types.specs.Ranges.{IsTax};
ghost use Rattle.esx_formulas.specs.Ratio.{tax_of, claim, ComesNoLater, IsRow, AreRows, AreAtFloor, HasLeastRatio, row_at};
ghost use Rattle.esx_formulas.specs.Targets.{first_claim};
ghost use Rattle.esx_formulas.specs.Payers.{IsBestBelow};

use crate::activity::WHOLE;
use crate::targets::Row;
use esx_types::VmId;

/// What a page costs of a machine that uses none of its memory or pays no tax: all of it, in hundredths.
pub const WHOLE_PRICE: u64 = 100 * WHOLE as u64;

/// The tax that a machine pays: its own, or else the site's.
pub fn tax_of(common: u32, own: Option<u32>) -> u32
    ensures value { result ≡ tax_of common own }
    ensures most { common ≤ MAX_TAU → IsTax own → result ≤ MAX_TAU }
{
    match own {
        None => common,
        Some(tau) => tau,
    }
}

/// The machine of least ratio among those with pages above their floor, each at its own tax: the next page
/// is taken from it. Of equal ratios the lower machine's is the less. It is none where no machine has pages
/// above its floor. The rows stand in order of machine.
pub fn least_ratio(rows: &[Row]) -> Option<VmId>
    requires rows { AreRows rows.now }
    ensures least { MatchOption result (AreAtFloor rows.now) (λ vm. HasLeastRatio rows.now vm) }
    ensures value { result ≡ option_map (λ a. a.vm) (first_claim rows.now) }
{
    match first_payer(rows) {
        Some(payer) => Some(rows[payer].vm),
        None => None,
    }
}

/// The row that comes first of those with pages above their floor.
fn first_payer(rows: &[Row]) -> Option<usize>
    requires rows { AreRows rows.now }
    ensures { IsBestBelow rows.now (λ i. (row_at rows.now i).pages) (length rows.now) result }
{
    let mut best: Option<usize> = None;
    for (i, row) in rows.iter().enumerate() {
        if row.pages <= row.floor {
            continue;
        }
        match best {
            Some(b) if comes_no_later(&rows[b], row) => {}
            _ => best = Some(i),
        }
    }
    best
}

/// Does the ratio of one row come no later than that of another, each at its own pages?
fn comes_no_later(row: &Row, other: &Row) -> bool
    requires row { IsRow row.now }
    requires other { IsRow other.now }
    ensures { IsTrue result ↔ ComesNoLater (claim row.now row.now.pages) (claim other.now other.now.pages) }
{
    comes_no_later_at(row, row.pages, other, other.pages)
}

/// Does the ratio of one row at so many pages come no later than that of another at so many?
///
/// Ratios compare by cross-multiplying; a product is below 2^66.
pub fn comes_no_later_at(row: &Row, pages: u32, other: &Row, other_pages: u32) -> bool
    requires row { IsRow row.now }
    requires other { IsRow other.now }
    requires pages { (pages ≤ MAX_PAGES) × (other_pages ≤ MAX_PAGES) }
    ensures { IsTrue result ↔ ComesNoLater (claim row.now pages) (claim other.now other_pages) }
{
    let mine = u128::from(weight(row)) * u128::from(u64::from(other_pages) * price(other));
    let theirs = u128::from(weight(other)) * u128::from(u64::from(pages) * price(row));
    mine < theirs || mine == theirs && row.vm <= other.vm
}

/// What a machine's shares weigh, in hundredths: the less, the more its tax takes.
pub fn weight(row: &Row) -> u32
    requires { IsRow row.now }
    ensures value { result ≡ row.now.shares * (100 - row.now.tau) }
    ensures most { result ≤ 100 * MAX_SHARES }
{
    row.shares * (100 - row.tau)
}

/// What each page of a machine costs, in units of 1/`WHOLE_PRICE`: the less of its memory is in use, the more.
pub fn price(row: &Row) -> u64
    requires { IsRow row.now }
    ensures value { result ≡ WHOLE_PRICE - row.now.tau * row.now.active }
    ensures least { WHOLE ≤ result }
    ensures most { result ≤ WHOLE_PRICE }
{
    WHOLE_PRICE - u64::from(row.tau) * u64::from(row.active)
}
