use crate::activity::{active_share, fast_average, slow_average, touched_share};
use crate::level::{depth, margin, threshold};
use crate::targets::targets;
use crate::{Estimate, Period, Row, are_rows, content_key, hint_key, least_ratio, short_of};
use esx_types::{Config, Level, Rows, VmId};
use std::test::Fail;

#[test]
fn a_key_is_the_first_eight_bytes_of_the_digest(rt: HostRuntime) {
    assert_eq!(rt; content_key(b"abc"), 0xba78_16bf_8f01_cfea);
    assert_eq!(rt; content_key(b""), 0xe3b0_c442_98fc_1c14);
}

#[test]
fn a_hint_stands_under_the_first_four_bytes_of_the_digest(rt: HostRuntime) {
    assert_eq!(rt; hint_key(b"abc"), 0xba78_16bf);
    assert_eq!(rt; short_of(0xffff_ffff_ffff_ffff), 0xffff_ffff);
    assert_eq!(rt; short_of(0xffff_ffff), 0);
}

#[test]
fn averages_follow_closed_periods(rt: HostRuntime) {
    let first = Estimate {
        touched: 1,
        pages: 4,
    };
    let second = Estimate {
        touched: 2,
        pages: 2,
    };
    assert_eq!(rt; touched_share(first), 16384);
    assert_eq!(rt; slow_average(&[first, second]), 60160);
    assert_eq!(rt; fast_average(&[first, second]), 53248);
    assert_eq!(rt; active_share(33614, 2048, Some(second)), 33792);
}

#[test]
fn a_period_knows_its_pages(rt: HostRuntime) -> Result<(), Fail> {
    let mut accessed = Rows::new(rt.alloc());
    accessed.push(5)?;
    let period = Period {
        length: 9,
        pages: Rows::new(rt.alloc()),
        accessed,
    };
    assert!(rt; period.is_touched(5));
    assert!(rt; !period.is_touched(6));
    Ok(())
}

#[test]
fn a_threshold_is_no_less_than_its_rank(rt: HostRuntime) {
    assert_eq!(rt; threshold(1000, 6, 4), 60);
    assert_eq!(rt; threshold(49, 6, 4), 4);
    assert_eq!(rt; depth(Level::High), 0);
    assert_eq!(rt; depth(Level::Low), 3);
}

#[test]
fn a_margin_is_no_less_than_one(rt: HostRuntime) -> Result<(), Fail> {
    for (frames, expected) in [(1000, 5), (8, 1)] {
        let site = Config {
            frames,
            page: 16,
            slots: 8,
            tau: 75,
            high: 6,
            soft: 4,
            hard: 2,
            low: 1,
            nodes: 16777216,
        };
        assert_eq!(rt; margin(&site.check()?), expected);
    }
    Ok(())
}

fn row(vm: u8, shares: u32, pages: u32, floor: u32, active: u32, tau: u32) -> Row {
    Row {
        vm: VmId::new(vm),
        shares,
        pages,
        floor,
        active,
        tau,
    }
}

#[test]
fn an_idle_machine_pays_before_one_with_fewer_shares(rt: HostRuntime) -> Result<(), Fail> {
    for (tau, payer) in [(75, 0), (0, 1)] {
        let rows = [row(0, 1000, 10, 1, 0, tau), row(1, 500, 10, 1, 65536, tau)];
        assert!(rt; are_rows(&rows));
        assert_eq!(rt; least_ratio(&rows), Some(VmId::new(payer)));
    }
    Ok(())
}

#[test]
fn a_taxed_machine_pays_before_one_without_a_tax(rt: HostRuntime) -> Result<(), Fail> {
    let rows = [row(0, 1000, 10, 1, 0, 0), row(1, 500, 10, 1, 65536, 75)];
    assert!(rt; are_rows(&rows));
    assert_eq!(rt; least_ratio(&rows), Some(VmId::new(1)));
    Ok(())
}

#[test]
fn the_last_machine_has_a_row(rt: HostRuntime) {
    let rows = [row(254, 1000, 10, 1, 0, 75), row(255, 999, 10, 1, 0, 75)];
    assert!(rt; are_rows(&rows));
    assert_eq!(rt; least_ratio(&rows), Some(VmId::new(255)));
}

#[test]
fn the_greatest_products_compare(rt: HostRuntime) -> Result<(), Fail> {
    let rows = [
        row(0, 1048576, 65535, 1, 0, 0),
        row(1, 1048576, 65536, 1, 0, 0),
    ];
    assert!(rt; are_rows(&rows));
    assert_eq!(rt; least_ratio(&rows), Some(VmId::new(1)));
    Ok(())
}

#[test]
fn no_machine_pays_at_its_floor(rt: HostRuntime) -> Result<(), Fail> {
    let rows = [row(3, 1000, 1, 2, 0, 75)];
    assert!(rt; are_rows(&rows));
    assert_eq!(rt; least_ratio(&rows), None);
    Ok(())
}

#[test]
fn a_tax_of_a_hundred_is_in_no_row(rt: HostRuntime) -> Result<(), Fail> {
    assert!(rt; row(0, 1, 1, 1, 1, 99).is_good());
    assert!(rt; !row(0, 1, 1, 1, 1, 100).is_good());
    Ok(())
}

#[test]
fn a_tie_goes_to_the_lower_machine(rt: HostRuntime) -> Result<(), Fail> {
    let rows = [
        row(0, 1000, 10, 2, 65536, 75),
        row(1, 1000, 6, 2, 65536, 75),
    ];
    assert!(rt; are_rows(&rows));
    assert_eq!(rt;
        targets(rt.alloc(), &rows, 5)?.as_slice(),
        [5, 6].as_slice()
    );
    Ok(())
}
