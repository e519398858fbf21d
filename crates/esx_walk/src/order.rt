//! Where a machine stands in the order in which machines are to give pages up.

ghost use Rattle.std.specs.Prelude.{◌≡◌, ◌≤◌, ◌==◌, nat_lt, not, find, count_by, length, option_map};
ghost use Rattle.std.specs.Option.{ForSome};
ghost use Rattle.esx_types.specs.declared.config.TheConstants.{VM_NUMBERS};
ghost use Rattle.esx_formulas.specs.Ratio.{claim, IsRow, AreRows};
ghost use Rattle.esx_formulas.specs.Targets.{comes_no_later};
ghost use Rattle.esx_story.specs.Order.{above_of, is_other_above, sooner_row, next_of, rank_among, order_of};
ghost use Rattle.esx_walk.specs.Ordered.{next_step, claim_of};

use esx_formulas::Row;
use esx_formulas::ratio::comes_no_later_at;
use esx_story::Order;
use esx_types::VmId;

/// Has the machine more pages than its floor?
fn is_above(row: &Row) -> bool
    ensures { result ≡ nat_lt row.now.floor row.now.pages }
{
    row.floor < row.pages
}

fn comes_no_later(row: &Row, other: &Row) -> bool
    requires row { IsRow row.now }
    requires other { IsRow other.now }
    ensures { result ≡ comes_no_later (claim row.now row.now.pages) (claim other.now other.now.pages) }
{
    comes_no_later_at(row, row.pages, other, other.pages)
}

/// The row of a machine.
fn own_row(rows: &[Row], vm: VmId) -> Option<Row>
    ensures { result ≡ find (λ row. row.vm == vm) rows.now }
{
    for (_at, row) in rows.iter().enumerate() {
        if row.vm == vm {
            return Some(*row);
        }
    }
    None
}

/// How many machines are above their floor.
fn count_above(rows: &[Row]) -> u32
    requires { length rows.now ≤ VM_NUMBERS }
    ensures { result ≡ length (above_of rows.now) }
{
    let mut count = 0;
    for (_at, row) in rows.iter().enumerate() {
        if is_above(row) {
            count += 1;
        }
    }
    count
}

/// The row of a machine, if it is above its floor.
fn own_above(rows: &[Row], vm: VmId) -> Option<Row>
    requires rows { AreRows rows.now }
    ensures claim { claim_of result ≡ find (λ a. a.vm == vm) (above_of rows.now) }
    ensures good { ForSome result IsRow }
{
    for (_at, row) in rows.iter().enumerate() {
        if is_above(row) && row.vm == vm {
            return Some(*row);
        }
    }
    None
}

/// How many machines above their floor come before a row.
fn count_before(rows: &[Row], own: &Row) -> u32
    requires rows { AreRows rows.now }
    requires own { IsRow own.now }
    requires few { length rows.now ≤ VM_NUMBERS }
    ensures value { result ≡ count_by (λ a. not (comes_no_later (claim own.now own.now.pages) a)) (above_of rows.now) }
    ensures few { result ≤ VM_NUMBERS }
{
    let mut count = 0;
    for (_at, row) in rows.iter().enumerate() {
        if is_above(row) && !comes_no_later(own, row) {
            count += 1;
        }
    }
    count
}

/// The place of a machine among those above their floor, from 1.
fn rank(rows: &[Row], vm: VmId) -> Option<u32>
    requires rows { AreRows rows.now }
    requires few { length rows.now ≤ VM_NUMBERS }
    ensures { result ≡ rank_among (above_of rows.now) vm }
{
    let own = own_above(rows, vm)?;
    Some(1 + count_before(rows, &own))
}

/// Of the row that came first so far and one more, the one that comes first of those of other machines above their
/// floor.
fn sooner(best: Option<Row>, row: &Row, vm: VmId) -> Option<Row>
    requires best { ForSome best IsRow }
    requires row { IsRow row.now }
    ensures value { result ≡ next_step vm best row.now }
    ensures good { ForSome result IsRow }
{
    if row.vm == vm || !is_above(row) {
        return best;
    }
    match best {
        Some(first) => {
            if comes_no_later(&first, row) {
                Some(first)
            } else {
                Some(*row)
            }
        }
        None => Some(*row),
    }
}

/// The row of the other machine that comes first of those above their floor.
fn next_of(rows: &[Row], vm: VmId) -> Option<Row>
    requires { AreRows rows.now }
    ensures { result ≡ next_of vm rows.now }
{
    let mut best = None;
    for (_at, row) in rows.iter().enumerate() {
        best = sooner(best, row, vm);
    }
    best
}

/// Where a machine stands among these rows.
pub fn order_of(rows: &[Row], vm: VmId) -> Order
    requires rows { AreRows rows.now }
    requires few { length rows.now ≤ VM_NUMBERS }
    ensures { result ≡ order_of rows.now vm }
{
    Order {
        own: own_row(rows, vm),
        above: count_above(rows),
        rank: rank(rows, vm),
        next: next_of(rows, vm),
    }
}
