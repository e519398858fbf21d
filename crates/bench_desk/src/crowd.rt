//! Threads at one desk.

ghost use Rattle.std.specs.Prelude.{◌≡◌, ◌<◌, ◌≤◌, All, IfOk, length};
ghost use Rattle.esx_desk.specs.Told.{IsOf};

use crate::site::{opened, question};
use esx_desk::{Desk, Pass};
use esx_events::Refusal;
use esx_types::CALLERS;
use std::alloc::{AllocError, Global};
use std::sync::Wait;
use std::sync::atomic::{AtomicU64, Ordering};
use std::thread::{self, Threads};

/// How often a thread peeks in place of one call, since a peek takes so little.
pub const PEEKS: u64 = 100;

/// A desk for so many callers, and their passes.
pub fn desk_for(alloc: Global, callers: usize) -> Result<(Desk, Vec<Pass>), Refusal>
    requires { (0 < callers) × (callers ≤ CALLERS) }
    ensures len { IfOk result (λ r. length r.1.items ≡ callers) }
    ensures own { IfOk result (λ r. All (IsOf r.0) r.1.items) }
{
    Ok(Desk::over(alloc, opened(alloc)?, callers)?)
}

/// The same with one more caller, whose pass comes last.
pub fn desk_with_one_more(alloc: Global, callers: usize) -> Result<(Desk, Vec<Pass>, Pass), Refusal>
    requires { callers < CALLERS }
    ensures { IfOk result (λ r. All (IsOf r.0) r.1.items × IsOf r.0 r.2) }
{
    let (desk, mut passes) = desk_for(alloc, callers + 1)?;
    let pass = passes.pop().unwrap();
    Ok((desk, passes, pass))
}

// Asks so often. How often it was answered.
fn submit_all<R: Wait>(rt: &R, desk: &Desk, mut pass: Pass, count: u32) -> u64
    requires { IsOf desk.now pass }
{
    let mut answered = 0u64;
    for _turn in 0..count {
        if desk.submit(rt, &mut pass, question()).is_ok() {
            answered += 1;
        }
    }
    answered
}

// Peeks `PEEKS` times for each of so many calls, and adds up the free frames.
fn peek_all(desk: &Desk, mut pass: Pass, count: u32) -> u64
    requires { IsOf desk.now pass }
{
    let mut free = 0u64;
    for _turn in 0..u64::from(count) * PEEKS {
        free = free.wrapping_add(u64::from(desk.peek(&mut pass).free));
    }
    free
}

// Peeks until the others are done. How often it peeked.
fn peek_until<R: Wait>(rt: &R, desk: &Desk, mut pass: Pass, done: &AtomicU64) -> u64
    requires { IsOf desk.now pass }
{
    let mut peeks = 0u64;
    for _ in rt.forever() {
        if done.load(Ordering::SeqCst) > 0 {
            break;
        }
        desk.peek(&mut pass);
        peeks = peeks.wrapping_add(1);
    }
    peeks
}

/// Asks so often in a thread for each pass. How often each was answered.
pub fn submit_at_once<R: Threads + Wait + Sync>(
    rt: &R,
    desk: &Desk,
    passes: Vec<Pass>,
    count: u32,
) -> Result<Vec<u64>, AllocError>
    requires { All (IsOf desk.now) passes.items }
{
    let work = |pass: Pass| -> u64
        requires { IsOf desk.now pass }
    { submit_all(rt, desk, pass, count) };
    thread::map_vec(rt, passes, &work)
}

/// Peeks `PEEKS` times for each of so many calls, in a thread for each pass. The free frames that each saw, added up.
pub fn peek_at_once<R: Threads + Sync>(
    rt: &R,
    desk: &Desk,
    passes: Vec<Pass>,
    count: u32,
) -> Result<Vec<u64>, AllocError>
    requires { All (IsOf desk.now) passes.items }
{
    let work = |pass: Pass| -> u64
        requires { IsOf desk.now pass }
    { peek_all(desk, pass, count) };
    thread::map_vec(rt, passes, &work)
}

// As `submit_at_once`, and tells when it is done.
fn submit_and_tell<R: Threads + Wait + Sync>(
    rt: &R,
    desk: &Desk,
    passes: Vec<Pass>,
    count: u32,
    done: &AtomicU64,
) -> Result<Vec<u64>, AllocError>
    requires { All (IsOf desk.now) passes.items }
{
    let answered = submit_at_once(rt, desk, passes, count);
    done.store(1, Ordering::SeqCst);
    answered
}

/// As `submit_at_once`, while one more thread peeks. How often it did.
pub fn peek_beside<R: Threads + Wait + Sync>(
    rt: &R,
    desk: &Desk,
    passes: Vec<Pass>,
    pass: Pass,
    count: u32,
) -> Result<u64, AllocError>
    requires { All (IsOf desk.now) passes.items × IsOf desk.now pass }
{
    let done = AtomicU64::new(0);
    let (submitted, peeks) = thread::join(
        rt,
        || -> Result<Vec<u64>, AllocError>
            requires { All (IsOf desk.now) passes.items }
        { submit_and_tell(rt, desk, passes, count, &done) },
        || peek_until(rt, desk, pass, &done),
    );
    submitted?;
    Ok(peeks)
}
