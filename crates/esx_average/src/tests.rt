use crate::{Averages, Row, are_rows, targets};
use esx_formulas::targets as plain;
use esx_types::VmId;
use std::alloc::Global;
use std::process::Abort;
use std::test::Fail;

/// What the averages are, in units of 1/65,536, and what counts as in use where no period is open.
fn expect_averages(rt: &impl Abort, averages: Averages, slow: u32, fast: u32, active: u32) {
    assert_eq!(rt; averages.slow(), slow);
    assert_eq!(rt; averages.fast(), fast);
    assert_eq!(rt; averages.active(None), active);
}

#[test]
fn averages_follow_closed_periods(rt: HostRuntime) {
    let opened = Averages::opened();
    expect_averages(&rt, opened, 65536, 65536, 65536);
    assert_eq!(rt; opened.active(Some((1, 4))), 65536);
    let after_one = opened.close_period(1, 4);
    expect_averages(&rt, after_one, 59392, 40960, 59392);
    expect_averages(&rt, after_one.close_period(2, 2), 60160, 53248, 60160);
}

#[test]
fn an_open_period_counts(rt: HostRuntime) {
    let idle = Averages::opened().close_period(0, 1).close_period(0, 1);
    expect_averages(&rt, idle, 50176, 16384, 50176);
    let idle = idle
        .close_period(0, 1)
        .close_period(0, 1)
        .close_period(0, 1);
    expect_averages(&rt, idle, 33614, 2048, 33614);
    assert_eq!(rt; idle.active(Some((1, 1))), 33792);
}

/// A row at a tax of 75 percent.
fn row(vm: u8, shares: u32, pages: u32, floor: u32, active: u32) -> Row {
    Row {
        vm: VmId::new(vm),
        shares,
        pages,
        floor,
        active,
        tau: 75,
    }
}

/// A row at a tax of its own.
fn at_tax(tau: u32, row: Row) -> Row {
    Row { tau, ..row }
}

/// The targets of rows where pages are needed, by both ways to find them.
fn expect_targets(
    rt: &impl Abort,
    alloc: Global,
    rows: &[Row],
    need: u32,
    expected: &[u32],
) -> Result<(), Fail> {
    assert!(rt; are_rows(rows));
    assert_eq!(rt; targets(alloc, rows, need)?.as_slice(), expected);
    assert_eq!(rt; plain::targets(alloc, rows, need)?.as_slice(), expected);
    Ok(())
}

#[test]
fn a_tie_goes_to_the_lower_machine(rt: HostRuntime) -> Result<(), Fail> {
    let rows = [row(0, 1000, 10, 2, 65536), row(1, 1000, 6, 2, 65536)];
    expect_targets(&rt, rt.alloc(), &rows, 5, &[5, 6])
}

#[test]
fn many_pages_leave_each_machine_in_line_with_its_shares(rt: HostRuntime) -> Result<(), Fail> {
    let rows = [
        row(0, 3000, 1000, 2, 65536),
        row(1, 1000, 1000, 2, 65536),
        row(2, 1000, 40, 36, 65536),
    ];
    expect_targets(&rt, rt.alloc(), &rows, 800, &[900, 300, 40])
}

#[test]
fn pages_that_are_revoked_in_bulk_leave_the_same_targets(rt: HostRuntime) -> Result<(), Fail> {
    let rows = [
        row(0, 1000, 1000, 2, 0),
        row(1, 2000, 1010, 3, 8192),
        row(2, 3000, 1020, 4, 16384),
        row(3, 4000, 1030, 5, 24576),
        row(4, 5000, 1040, 6, 32768),
        row(5, 6000, 1050, 7, 40960),
        row(6, 7000, 1060, 8, 49152),
        row(7, 8000, 1070, 9, 57344),
    ];
    let expected = [67, 149, 250, 377, 542, 765, 1060, 1070];
    expect_targets(&rt, rt.alloc(), &rows, 4000, &expected)
}

#[test]
fn a_machine_at_its_least_changes_nothing_for_seven_others(rt: HostRuntime) -> Result<(), Fail> {
    let rows = [
        row(0, 1, 2000, 2000, 65536),
        row(1, 1000, 20037, 1000, 65536),
        row(2, 1000, 20074, 1000, 65536),
        row(3, 1000, 20111, 1000, 65536),
        row(4, 1000, 20148, 1000, 65536),
        row(5, 1000, 20185, 1000, 65536),
        row(6, 1000, 20222, 1000, 65536),
        row(7, 1000, 20259, 1000, 65536),
    ];
    let expected = [2000, 19862, 19862, 19862, 19862, 19862, 19863, 19863];
    expect_targets(&rt, rt.alloc(), &rows, 2000, &expected)
}

#[test]
fn machines_at_taxes_of_their_own_pay_in_bulk(rt: HostRuntime) -> Result<(), Fail> {
    let rows = [
        at_tax(0, row(0, 1000, 1000, 2, 0)),
        at_tax(99, row(1, 2000, 1010, 3, 8192)),
        at_tax(50, row(2, 3000, 1020, 4, 16384)),
        at_tax(75, row(3, 4000, 1030, 5, 24576)),
        at_tax(10, row(4, 5000, 1040, 6, 32768)),
        at_tax(90, row(5, 6000, 1050, 7, 40960)),
        at_tax(75, row(6, 7000, 1060, 8, 49152)),
        at_tax(98, row(7, 8000, 1070, 9, 57344)),
    ];
    let expected = [329, 7, 564, 458, 1040, 452, 1060, 370];
    expect_targets(&rt, rt.alloc(), &rows, 4000, &expected)
}

#[test]
fn the_dearest_and_the_cheapest_pages_compare(rt: HostRuntime) -> Result<(), Fail> {
    let rows = [
        at_tax(99, row(0, 1, 60000, 59000, 0)),
        at_tax(0, row(1, 1048576, 50000, 49000, 65536)),
        at_tax(75, row(2, 1, 60000, 59500, 0)),
        at_tax(99, row(3, 1048576, 65536, 65000, 0)),
        at_tax(50, row(4, 500, 40000, 39900, 30000)),
        at_tax(99, row(5, 1, 65536, 65536, 0)),
        at_tax(0, row(6, 1000, 30000, 29999, 0)),
        at_tax(99, row(7, 1, 65536, 64000, 65536)),
    ];
    let expected = [59000, 50000, 59500, 65536, 40000, 65536, 30000, 64536];
    expect_targets(&rt, rt.alloc(), &rows, 2500, &expected)
}

#[test]
fn no_target_is_below_its_floor(rt: HostRuntime) -> Result<(), Fail> {
    let rows = [row(0, 1000, 10, 2, 65536), row(1, 1000, 6, 2, 65536)];
    expect_targets(&rt, rt.alloc(), &rows, 100, &[2, 2])
}

#[test]
fn a_machine_below_its_floor_keeps_it_as_target(rt: HostRuntime) -> Result<(), Fail> {
    expect_targets(&rt, rt.alloc(), &[row(0, 1000, 1, 2, 65536)], 5, &[2])
}

#[test]
fn there_may_be_no_rows(rt: HostRuntime) -> Result<(), Fail> {
    expect_targets(&rt, rt.alloc(), &[], 5, &[])
}
