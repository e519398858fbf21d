// What is run of a lock that is held for about as long as a thread looks before it sleeps, over and over.

ghost use Rattle.std.specs.Prelude.{IfOk};
ghost use Rattle.lock_tests.specs.Passes.{IsIdle};

use crate::plays::{count_in_order, opened, submit};
use crate::tally::Tally;
use esx_lock::{OwnLock, Pass};
use std::alloc::AllocError;
use std::hint::spin_loop;
use std::sync::Wait;
use std::sync::atomic::{AtomicU64, Ordering};
use std::test::Fail;
use std::thread;

/// The longest hold, in moments: about three times as long as a thread looks.
const LONGEST: u64 = 300;

/// How far the threads are: how often one has taken the lock, and how often the other has given it back since.
#[derive(Drop)]
struct Progress {
    held: AtomicU64,
    done: AtomicU64,
}

fn none_yet() -> Progress {
    Progress {
        held: AtomicU64::new(0),
        done: AtomicU64::new(0),
    }
}

/// Waits until the count has come to this. It looks for a while before it sleeps, so that it is there at once.
fn wait_until<R: Wait>(rt: &R, count: &AtomicU64, least: u64) {
    for _ in 0..2000 {
        if count.load(Ordering::SeqCst) >= least {
            return;
        }
        spin_loop();
    }
    for _ in rt.forever() {
        let now = count.load(Ordering::SeqCst);
        if now >= least {
            return;
        }
        count.park(rt, (now & 0xffff_ffff) as u32);
    }
}

/// Adds one to a count, for all who wait for it.
fn count_up(count: &AtomicU64) {
    count.fetch_add(1, Ordering::SeqCst);
    count.wake_all();
}

/// Holds the lock once in each round, each time a moment longer, and then waits until the other has had it. So nothing but
/// this one give wakes the other where it sleeps.
fn hold_each_round<R: Wait>(
    rt: &R,
    lock: &OwnLock<Tally>,
    mut pass: Pass,
    progress: &Progress,
    rounds: u64,
) -> Pass
    requires { IsIdle lock.now pass }
    ensures { IsIdle lock.now result }
{
    for round in 0..rounds {
        let tally = lock.take(rt, &mut pass);
        count_up(&progress.held);
        for _ in 0..round % LONGEST {
            spin_loop();
        }
        lock.give(&mut pass, tally);
        wait_until(rt, &progress.done, round + 1);
    }
    pass
}

/// Adds a line in each round, and mostly has to wait for the lock.
fn submit_each_round<R: Wait>(
    rt: &R,
    lock: &OwnLock<Tally>,
    mut pass: Pass,
    progress: &Progress,
    rounds: u64,
) -> Result<Pass, AllocError>
    requires { IsIdle lock.now pass }
    ensures { IfOk result (IsIdle lock.now) }
{
    let mut all = Ok(());
    for round in 0..rounds {
        wait_until(rt, &progress.held, round + 1);
        let added = submit(rt, lock, &mut pass, round);
        count_up(&progress.done);
        all = all.and(added);
    }
    all?;
    Ok(pass)
}

#[test]
fn threads_look_and_sleep(rt: HostRuntime) -> Result<(), Fail> {
    let (lock, first, second) = opened(rt.alloc(), 0)?;
    let progress = none_yet();
    let (first, second) = thread::join(
        &rt,
        || hold_each_round(&rt, &lock, first, &progress, 15_000),
        || submit_each_round(&rt, &lock, second, &progress, 15_000),
    );
    let both = lock.join(first, second?);
    assert!(rt; lock.whole(&both));
    let tally = lock.close(both);
    assert_eq!(rt; tally.log.len(), 15_000);
    assert_eq!(rt; count_in_order(&tally.log, 1), Some(15_000));
    Ok(())
}
