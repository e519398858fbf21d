//! Threads at one desk.

ghost use Rattle.std.specs.Prelude.{◌<◌, ◌≤◌, IfOk, IfSome};
ghost use Rattle.desk_tests.specs.Crowd.{AreOf, AreBack};
ghost use Rattle.esx_desk.specs.Told.{IsOf};

use crate::calls::{OPENING, SITE, nth_call};
use esx_console::Console;
use esx_desk::{Desk, Gauge, Pass, TryFault};
use esx_events::Refusal;
use esx_types::CALLERS;
use std::alloc::{AllocError, Global};
use std::sync::Wait;
use std::thread;
use std::thread::Threads;

/// How often each caller makes a call, or peeks.
pub const TURNS: u64 = 200;

/// What a thread gives back: its pass, and the gauges that it saw, the first one first.
#[derive(Drop)]
pub struct Worked {
    pub pass: Pass,
    pub gauges: Result<Vec<Gauge>, AllocError>,
}

fn submit_all<R: Wait>(
    rt: &R,
    alloc: Global,
    desk: &Desk,
    pass: &mut Pass,
) -> Result<Vec<Gauge>, AllocError>
    requires { IsOf desk.now pass.old }
    ensures { IsOf desk.now pass.new }
{
    let caller = pass.caller();
    let made = if caller == 0 { OPENING } else { 0 };
    for number in made..made + TURNS {
        let _ = desk.submit(rt, pass, nth_call(alloc, caller, number)?)?;
    }
    Ok(Vec::new(alloc))
}

// A call that finds the console held is tried again at the next turn.
fn try_all(alloc: Global, desk: &Desk, pass: &mut Pass) -> Result<Vec<Gauge>, AllocError>
    requires { IsOf desk.now pass.old }
    ensures { IsOf desk.now pass.new }
{
    let caller = pass.caller();
    let mut number = 0;
    for _turn in 0..TURNS {
        match desk.try_submit(pass, nth_call(alloc, caller, number)?) {
            Ok(_) => number += 1,
            Err(TryFault::Busy(_)) => {}
            Err(TryFault::OutOfMemory) => return Err(AllocError),
        }
    }
    Ok(Vec::new(alloc))
}

fn peek_all(alloc: Global, desk: &Desk, pass: &mut Pass) -> Result<Vec<Gauge>, AllocError>
    requires { IsOf desk.now pass.old }
    ensures { IsOf desk.now pass.new }
{
    let mut gauges = Vec::new(alloc);
    for _turn in 0..TURNS {
        gauges.push(desk.peek(pass))?;
    }
    Ok(gauges)
}

// Callers 0 to 3 submit, 4 tries, and the others peek.
fn work<R: Wait>(rt: &R, alloc: Global, desk: &Desk, mut pass: Pass) -> Worked
    requires { IsOf desk.now pass }
    ensures { IsOf desk.now result.pass }
{
    let gauges = match pass.caller() {
        0..=3 => submit_all(rt, alloc, desk, &mut pass),
        4 => try_all(alloc, desk, &mut pass),
        _ => peek_all(alloc, desk, &mut pass),
    };
    Worked { pass, gauges }
}

/// A thread for each pass.
fn work_at_once<R: Threads + Wait + Sync>(
    rt: &R,
    alloc: Global,
    desk: &Desk,
    passes: Vec<Pass>,
) -> Result<Vec<Worked>, AllocError>
    requires { AreOf desk.now passes.items }
    ensures { IfOk result (λ worked. AreBack desk.now worked.items) }
{
    let one = |pass: Pass| -> Worked
        requires { IsOf desk.now pass }
        ensures { IsOf desk.entry.now result.pass }
    { work(rt, alloc, desk, pass) };
    thread::map_vec(rt, passes, &one)
}

/// One pass for all, where there is any, and what the threads saw.
fn meet_all(
    alloc: Global,
    desk: &Desk,
    mut worked: Vec<Worked>,
) -> Result<(Option<Pass>, Vec<Vec<Gauge>>), AllocError>
    requires { AreBack desk.now worked.items }
    ensures { IfOk result (λ r. IfSome r.0 (IsOf desk.now)) }
{
    let mut met = None;
    let mut gauges = Vec::with_capacity(alloc, worked.len())?;
    while let Some(one) = worked.pop() {
        gauges.push(one.gauges?)?;
        met = match met {
            Some(pass) => Some(desk.meet(pass, one.pass)),
            None => Some(one.pass),
        };
    }
    Ok((met, gauges))
}

/// A console that caller 0 made the opening calls of.
fn opened(alloc: Global) -> Result<Console, Refusal> {
    let mut console = Console::open(alloc, SITE)?;
    for number in 0..OPENING {
        let _ = console.call(0, nth_call(alloc, 0, number)?)?;
    }
    Ok(console)
}

/// A console that this many callers shared, each in a thread of its own, and what they saw.
pub fn share<R: Threads + Wait + Sync>(
    rt: &R,
    alloc: Global,
    callers: usize,
) -> Result<(Option<Console>, Vec<Vec<Gauge>>), Refusal>
    requires { (0 < callers) × (callers ≤ CALLERS) }
{
    let (desk, passes) = Desk::over(alloc, opened(alloc)?, callers)?;
    let worked = work_at_once(rt, alloc, &desk, passes)?;
    let (met, gauges) = meet_all(alloc, &desk, worked)?;
    let console = match met {
        Some(pass) if desk.whole(&pass) => Some(desk.close(pass)),
        _ => None,
    };
    Ok((console, gauges))
}
