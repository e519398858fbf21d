//! Counts of resident pages.

ghost use Rattle.std.specs.Prelude.{◌≡◌, ◌+◌, ◌<◌, ◌≤◌, IsTrue, length, slice_index, sum, take};
ghost use Rattle.esx_types.specs.declared.table.MapRow.{MapRow};
ghost use Rattle.esx_types.specs.Pages.{is_here, page_at, resident_count};

use esx_types::MapRow;

/// How many rows are passed at once where the page is behind them.
const GROUP: usize = 16;

/// The block in which the `k`-th counted page is, and how many come before it there.
pub fn nth_block(blocks: &[u32], k: u32) -> (usize, u32)
    requires { k < sum blocks.now }
    ensures in_range { result.0 < length blocks.now }
    ensures within { result.1 < slice_index blocks.now result.0 }
    ensures before { sum (take result.0 blocks.now) + result.1 ≡ k }
{
    let mut rest = k;
    for (block, count) in blocks.iter().enumerate() {
        if rest < *count {
            return (block, rest);
        }
        rest -= *count;
    }
    unreachable!()
}

/// How many of a group's rows are of resident pages.
fn here_count(rows: &[MapRow]) -> u32
    requires { length rows.now ≤ GROUP }
    ensures { result ≡ resident_count rows.now }
{
    let mut count = 0;
    for row in rows {
        if row.is_here() {
            count += 1;
        }
    }
    count
}

/// The end of the whole groups that come before the `k`-th resident page, and how many come before it from there on.
fn pass_groups(rows: &[MapRow], k: u32) -> (usize, u32)
    requires { k < resident_count rows.now }
    ensures within { result.0 ≤ length rows.now }
    ensures before { resident_count (take result.0 rows.now) + result.1 ≡ k }
{
    let mut rest = k;
    let groups = rows.len() / GROUP;
    for group in 0..groups {
        let start = group * GROUP;
        let count = here_count(&rows[start..start + GROUP]);
        if rest < count {
            return (start, rest);
        }
        rest -= count;
    }
    (groups * GROUP, rest)
}

/// The place of the `k`-th resident page among some rows.
pub fn nth_here(rows: &[MapRow], k: u32) -> usize
    requires { k < resident_count rows.now }
    ensures in_range { result < length rows.now }
    ensures here { IsTrue (is_here (page_at rows.now result)) }
    ensures before { resident_count (take result rows.now) ≡ k }
{
    let (start, rest) = pass_groups(rows, k);
    start + nth_from(&rows[start..], rest)
}

/// The same, row by row.
fn nth_from(rows: &[MapRow], k: u32) -> usize
    requires { k < resident_count rows.now }
    ensures in_range { result < length rows.now }
    ensures here { IsTrue (is_here (page_at rows.now result)) }
    ensures before { resident_count (take result rows.now) ≡ k }
{
    let mut rest = k;
    for (at, row) in rows.iter().enumerate() {
        if row.is_here() {
            if rest == 0 {
                return at;
            }
            rest -= 1;
        }
    }
    unreachable!()
}
