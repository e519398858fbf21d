// What is run of the lock. Each test ends by itself, and its answer does not depend on which thread is first.

use crate::plays::{alone, count_in_order, opened, submit_all, whole_and_part, words};
use esx_lock::Gauge;
use esx_types::Level;
use std::test::Fail;
use std::thread;

#[test]
fn closes_with_all_that_was_written(rt: HostRuntime) -> Result<(), Fail> {
    let tally = alone(&rt, rt.alloc())?;
    assert_eq!(rt; tally.log.len(), 1);
    assert_eq!(rt; tally.log[0].reply.jumps, 7);
    Ok(())
}

#[test]
fn two_threads_write_one_log(rt: HostRuntime) -> Result<(), Fail> {
    let (lock, first, second) = opened(rt.alloc(), 0)?;
    let (first, second) = thread::join(
        &rt,
        || submit_all(&rt, &lock, first),
        || submit_all(&rt, &lock, second),
    );
    let both = lock.join(first?, second?);
    assert!(rt; lock.whole(&both));
    let tally = lock.close(both);
    assert_eq!(rt; tally.log.len(), 2000);
    assert_eq!(rt; count_in_order(&tally.log, 0), Some(1000));
    assert_eq!(rt; count_in_order(&tally.log, 1), Some(1000));
    Ok(())
}

#[test]
fn reads_the_held_bit_alone(rt: HostRuntime) -> Result<(), Fail> {
    assert_eq!(rt; words(&rt, rt.alloc(), 0)?, [1, 1, 0]);
    Ok(())
}

#[test]
fn reads_the_gauge_and_the_held_bit(rt: HostRuntime) -> Result<(), Fail> {
    assert_eq!(rt; words(&rt, rt.alloc(), 10)?, [83, 83, 74]);
    Ok(())
}

#[test]
fn a_word_tells_its_gauge(rt: HostRuntime) -> Result<(), Fail> {
    let held = Gauge {
        free: 10,
        level: Level::Soft,
        held: true,
    };
    let free = Gauge {
        held: false,
        ..held
    };
    assert_eq!(rt; Gauge::of(83), held);
    assert_eq!(rt; Gauge::of(82), free);
    assert_eq!(rt; held.word(), 83);
    assert_eq!(rt; free.word(), 82);
    Ok(())
}

#[test]
fn parts_and_joins(rt: HostRuntime) -> Result<(), Fail> {
    let (lock, first, second) = opened(rt.alloc(), 0)?;
    let (whole, part, mut both) = whole_and_part(&lock, lock.join(first, second));
    assert!(rt; whole && !part);
    let Ok(tally) = lock.try_take(&mut both) else {
        return Err(Fail::new("busy"));
    };
    assert_eq!(rt; tally.log.len(), 0);
    Ok(())
}
