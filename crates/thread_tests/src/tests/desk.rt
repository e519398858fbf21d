// What is run of the desk. Each test ends by itself, and its answer does not depend on which thread is first.

ghost use Rattle.std.specs.Prelude.{IfOk};
ghost use Rattle.esx_desk.specs.Told.{IsOf};

use super::done;
use desk_tests::calls::OPENING;
use desk_tests::crowd::{TURNS, share};
use desk_tests::plays::{
    alone, closed, goes_on, parts_and_meets, read_byte, started, write_and_look,
    write_past_a_shut_gate,
};
use desk_tests::replays::{callers_of, count_of, gauges_along, in_order};
use esx_console::Console;
use esx_desk::{Desk, Gauge, Pass};
use esx_events::{Line, Refusal, Said};
use esx_types::Level;
use std::alloc::Global;
use std::process::Abort;
use std::sync::Wait;
use std::test::Fail;
use std::thread::Threads;

fn expect_counts(rt: &impl Abort, log: &[Line]) {
    let counts = [0, 1, 2, 3].map(|caller| count_of(log, caller) as u64);
    assert_eq!(rt; counts, [OPENING + TURNS, TURNS, TURNS, TURNS]);
}

fn expect_in_order(rt: &impl Abort, seen: &[Vec<Gauge>], gauges: &[(u32, Level)]) {
    for peeks in seen {
        assert!(rt; in_order(peeks, gauges));
    }
}

fn expect_shared(
    rt: &impl Abort,
    alloc: Global,
    log: &[Line],
    seen: &[Vec<Gauge>],
) -> Result<(), Fail> {
    let gauges = gauges_along(alloc, log)?.ok_or("one log")?;
    expect_counts(rt, log);
    expect_in_order(rt, seen, gauges.as_slice());
    Ok(())
}

fn expect_console(
    rt: &impl Abort,
    alloc: Global,
    console: Option<Console>,
    seen: &[Vec<Gauge>],
) -> Result<(), Fail> {
    match console {
        Some(console) => {
            let outcome = expect_shared(rt, alloc, console.log(), seen);
            done(console);
            outcome
        }
        None => Err(Fail::new("a pass for all callers")),
    }
}

#[test]
fn threads_share_one_console(rt: HostRuntime) -> Result<(), Fail> {
    match share(&rt, rt.alloc(), 8) {
        Ok((console, seen)) => expect_console(&rt, rt.alloc(), console, seen.as_slice()),
        Err(refusal) => Err(Fail::from(refusal)),
    }
}

/// More callers than one word has bits, of which most peek.
#[test]
fn many_threads_share_one_console(rt: HostRuntime) -> Result<(), Fail> {
    match share(&rt, rt.alloc(), 80) {
        Ok((console, seen)) => expect_console(&rt, rt.alloc(), console, seen.as_slice()),
        Err(refusal) => Err(Fail::from(refusal)),
    }
}

/// What the word of a peek is.
fn expect_word(rt: &impl Abort, desk: &Desk, pass: &mut Pass, word: u64)
    requires { IsOf desk.now pass.old }
    ensures { IsOf desk.now pass.new }
{
    assert_eq!(rt; desk.peek(pass).word(), word);
}

fn expect_byte(rt: &impl Abort, desk: &Desk, pass: &mut Pass, byte: u8)
    requires { IsOf desk.now pass.old }
    ensures { IsOf desk.now pass.new }
{
    assert_eq!(rt; read_byte(desk, pass), Some(byte));
}

fn expect_held(rt: &impl Abort, gauge: Gauge, busy: Option<u64>) {
    assert_eq!(rt;
        gauge,
        Gauge {
            free: 19,
            level: Level::High,
            held: true
        }
    );
    assert_eq!(rt; busy, Some(153));
}

fn expect_callers(rt: &impl Abort, alloc: Global, log: &[Line]) -> Result<(), Fail> {
    let callers = callers_of(alloc, log)?;
    assert_eq!(rt; callers.as_slice(), [0, 0, 0, 1].as_slice());
    Ok(())
}

// What the second caller sees while the first is at its gate, and both after that. The passes come back.
fn meet_at_a_gate<R: Threads + Wait + Sync + Abort>(
    rt: &R,
    alloc: Global,
    desk: &Desk,
    mut first: Pass,
    second: Pass,
) -> Result<(Pass, Pass), Fail>
    requires { IsOf desk.now first × IsOf desk.now second }
    ensures { IfOk result (λ r. IsOf desk.now r.0 × IsOf desk.now r.1) }
{
    expect_word(rt, desk, &mut first, 152);
    let (mut first, turn, look) = write_and_look(rt, alloc, desk, first, second)?;
    assert_eq!(rt; turn, 1);
    expect_held(rt, look.gauge, look.busy);
    expect_word(rt, desk, &mut first, 144);
    let mut second = look.pass;
    expect_byte(rt, desk, &mut second, 0x2a);
    Ok((first, second))
}

fn expect_closed(
    rt: &impl Abort,
    alloc: Global,
    desk: Desk,
    first: Pass,
    second: Pass,
) -> Result<(), Fail>
    requires { IsOf desk first × IsOf desk second }
{
    match closed(desk, first, second) {
        Some(console) => {
            let outcome = expect_callers(rt, alloc, console.log());
            done(console);
            outcome
        }
        None => Err(Fail::new("a pass for both callers")),
    }
}

#[test]
fn a_gate_keeps_the_console(rt: HostRuntime) -> Result<(), Fail> {
    match started(&rt, rt.alloc()) {
        Ok((desk, first, second)) => match meet_at_a_gate(&rt, rt.alloc(), &desk, first, second) {
            Ok((first, second)) => expect_closed(&rt, rt.alloc(), desk, first, second),
            Err(fail) => {
                done(desk);
                Err(fail)
            }
        },
        Err(refusal) => Err(Fail::from(refusal)),
    }
}

fn give_up<R: Wait + Abort>(
    rt: &R,
    alloc: Global,
    desk: &Desk,
    first: &mut Pass,
    second: &mut Pass,
) -> Result<(), Fail>
    requires { IsOf desk.now first.old × IsOf desk.now second.old }
{
    let reply = write_past_a_shut_gate(rt, alloc, desk, first)?;
    assert!(rt; matches!(reply.said, Said::Done { .. }));
    expect_byte(rt, desk, second, 0x2a);
    Ok(())
}

#[test]
fn a_gate_that_gives_up_keeps_no_call_back(rt: HostRuntime) -> Result<(), Fail> {
    match started(&rt, rt.alloc()) {
        Ok((desk, mut first, mut second)) => {
            let outcome = give_up(&rt, rt.alloc(), &desk, &mut first, &mut second);
            done(desk);
            outcome
        }
        Err(refusal) => Err(Fail::from(refusal)),
    }
}

// Also with each allocation failing in turn: `rt try --test --fail-alloc N`.
#[test]
fn the_console_goes_back_whatever_happens(rt: HostRuntime) -> Result<(), Fail> {
    assert!(rt;
        matches!(
            goes_on(&rt, rt.alloc()),
            Ok(true) | Err(Refusal::OutOfMemory)
        )
    );
    Ok(())
}

#[test]
fn parts_meet_again(rt: HostRuntime) -> Result<(), Fail> {
    assert_eq!(rt; parts_and_meets(rt.alloc())?, Some((false, true)));
    Ok(())
}

fn expect_one(rt: &impl Abort, log: &[Line]) {
    assert_eq!(rt; log.len(), 1);
}

#[test]
fn one_pass_alone(rt: HostRuntime) -> Result<(), Fail> {
    match alone(&rt, rt.alloc()) {
        Ok(console) => {
            expect_one(&rt, console.log());
            done(console);
            Ok(())
        }
        Err(refusal) => Err(Fail::from(refusal)),
    }
}
