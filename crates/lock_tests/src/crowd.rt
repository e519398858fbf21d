//! Threads that share one lock for a few calls each.

ghost use Rattle.std.specs.Prelude.{◌<◌, ◌≤◌, IfOk, IfSome};
ghost use Rattle.lock_tests.specs.Crowd.{AreIdle};
ghost use Rattle.lock_tests.specs.Passes.{IsIdle};

use crate::plays::{site, submit};
use crate::tally::Tally;
use esx_lock::{OwnLock, Pass};
use esx_types::CALLERS;
use std::alloc::{AllocError, Global};
use std::sync::Wait;
use std::thread;
use std::thread::Threads;

/// How often each of them takes the lock.
pub const TURNS: u64 = 4;

/// Adds a few lines. A line that there is no memory for is left out.
fn submit_few<R: Wait>(rt: &R, lock: &OwnLock<Tally>, mut pass: Pass) -> Pass
    requires { IsIdle lock.now pass }
    ensures { IsIdle lock.now result }
{
    for number in 0..TURNS {
        let _ = submit(rt, lock, &mut pass, number);
    }
    pass
}

/// A thread for each pass.
fn submit_at_once<R: Threads + Wait + Sync>(
    rt: &R,
    lock: &OwnLock<Tally>,
    passes: Vec<Pass>,
) -> Result<Vec<Pass>, AllocError>
    requires { AreIdle lock.now passes.items }
    ensures { IfOk result (λ back. AreIdle lock.now back.items) }
{
    let one = |pass: Pass| -> Pass
        requires { IsIdle lock.now pass }
        ensures { IsIdle lock.entry.now result }
    { submit_few(rt, lock, pass) };
    thread::map_vec(rt, passes, &one)
}

/// One pass for all, where there is any.
fn joined(lock: &OwnLock<Tally>, mut passes: Vec<Pass>) -> Option<Pass>
    requires { AreIdle lock.now passes.items }
    ensures { IfSome result (IsIdle lock.now) }
{
    let mut all = None;
    while let Some(pass) = passes.pop() {
        all = match all {
            Some(other) => Some(lock.join(other, pass)),
            None => Some(pass),
        };
    }
    all
}

/// How many lines this many callers write, each in a thread of its own.
pub fn share<R: Threads + Wait + Sync>(
    rt: &R,
    alloc: Global,
    callers: usize,
) -> Result<Option<usize>, AllocError>
    requires { (0 < callers) × (callers ≤ CALLERS) }
{
    let (lock, passes) = OwnLock::open(alloc, Tally::new(alloc, site(0)), callers)?;
    let back = submit_at_once(rt, &lock, passes)?;
    let lines = match joined(&lock, back) {
        Some(pass) if lock.whole(&pass) => Some(lock.close(pass).log.len()),
        _ => None,
    };
    Ok(lines)
}
