//! Callers that play with one lock.

ghost use Rattle.std.specs.Prelude.{◌≡◌, true, [], ◌∷◌, IfOk, OnOk};
ghost use Rattle.esx_types.specs.Ids.{has};
ghost use Rattle.esx_lock.specs.Passes.{IsOpened};
ghost use Rattle.lock_tests.specs.Passes.{IsIdle, Wrote};
ghost use Rattle.lock_tests.specs.Tally.{line_of};

use crate::tally::Tally;
use esx_events::Line;
use esx_lock::laws::whole_pass_has_seen_all;
use esx_lock::{Busy, OwnLock, Pass};
use esx_types::{Config, Ids};
use std::alloc::{AllocError, Global};
use std::sync::Wait;

pub fn site(frames: u32) -> Config
    ensures { result.frames ≡ frames }
{
    Config {
        frames,
        page: 16,
        slots: 8,
        tau: 0,
        high: 6,
        soft: 4,
        hard: 2,
        low: 1,
        nodes: 100,
    }
}

/// A lock for the callers 0 and 1, and the passes of both.
pub fn opened(alloc: Global, frames: u32) -> Result<(OwnLock<Tally>, Pass, Pass), AllocError>
    ensures lock { IfOk result (λ r. r.0.callers ≡ 2) }
    ensures passes { IfOk result (λ r. IsOpened r.0.table 2 r.1.view.site [] 0 r.1 × IsOpened r.0.table 2 r.1.view.site [] 1 r.2) }
{
    let tally = Tally::new(alloc, site(frames));
    let (lock, mut passes) = OwnLock::open(alloc, tally, 2)?;
    let second = passes.pop().unwrap();
    let first = passes.pop().unwrap();
    Ok((lock, first, second))
}

/// Adds a line as the least of the callers of a pass.
pub fn submit<R: Wait>(
    rt: &R,
    lock: &OwnLock<Tally>,
    pass: &mut Pass,
    number: u64,
) -> Result<(), AllocError>
    requires { IsIdle lock.now pass.old }
    ensures idle { IsIdle lock.now pass.new }
    ensures wrote { OnOk result (Wrote pass.old.view pass.new.view number) }
{
    let caller = pass.caller();
    let mut tally = lock.take(rt, pass);
    let added = tally.add(caller, number);
    lock.give(pass, tally);
    added
}

/// Adds the lines from 0 on, a thousand of them.
pub fn submit_all<R: Wait>(
    rt: &R,
    lock: &OwnLock<Tally>,
    mut pass: Pass,
) -> Result<Pass, AllocError>
    requires { IsIdle lock.now pass }
    ensures { IfOk result (IsIdle lock.now) }
{
    for number in 0..1000 {
        submit(rt, lock, &mut pass, number)?;
    }
    Ok(pass)
}

/// The value of a lock whose one pass speaks for all callers: its log is known, since nobody else can have
/// written.
pub fn alone<R: Wait>(rt: &R, alloc: Global) -> Result<Tally, AllocError>
    ensures { IfOk result (λ tally. tally.log.items ≡ line_of 0 7 ∷ []) }
{
    let (lock, first, second) = opened(alloc, 0)?;
    let mut both = lock.join(first, second);
    let mut tally = lock.take(rt, &mut both);
    let added = tally.add(0, 7);
    lock.give(&mut both, tally);
    added?;
    whole_pass_has_seen_all();
    Ok(lock.close(both))
}

/// How many lines a caller has, if they are numbered in order.
pub fn count_in_order(log: &[Line], caller: u16) -> Option<u64> {
    let mut next: u64 = 0;
    for line in log {
        if line.caller == caller {
            if line.reply.jumps != next {
                return None;
            }
            next = next.checked_add(1)?;
        }
    }
    Some(next)
}

/// The word while the first pass holds the lock, as `read` and as `Busy` tell it, and after a give with one line.
pub fn words<R: Wait>(rt: &R, alloc: Global, frames: u32) -> Result<[u64; 3], AllocError> {
    let (lock, mut first, mut second) = opened(alloc, frames)?;
    let caller = first.caller();
    let mut tally = lock.take(rt, &mut first);
    let held = lock.read(&mut second);
    let busy = match lock.try_take(&mut second) {
        Ok(other) => {
            lock.give(&mut second, other);
            0
        }
        Err(Busy(word)) => word,
    };
    let added = tally.add(caller, 0);
    lock.give(&mut first, tally);
    added?;
    let free = lock.read(&mut second);
    Ok([held, busy, free])
}

/// The second caller is parted from both, and comes back.
pub fn whole_and_part(lock: &OwnLock<Tally>, both: Pass) -> (bool, bool, Pass)
    requires idle { IsIdle lock.now both }
    requires ids { (has both.view.ids 0 ≡ true) × (has both.view.ids 1 ≡ true) }
    ensures { IsIdle lock.now result.2 }
{
    let whole = lock.whole(&both);
    let (first, second) = lock.split(both, Ids::single(1));
    let part = lock.whole(&first);
    (whole, part, lock.join(first, second))
}
