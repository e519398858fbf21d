//! Times a desk: `bench_desk COUNT` asks a console so often, and then in each of 1, 2, 4 and 8 threads at one
//! desk. It peeks 100 times as often in each, and then in one more thread for as long as the others ask.
//!
//! What was answered goes to standard output, and how many were made in a second to standard error.
#![tactic(auto)]

ghost use Rattle.std.specs.Prelude.{◌<◌};

mod crowd;
mod site;

use anyhow::{Context, Result, anyhow};
use crowd::{PEEKS, desk_for, desk_with_one_more, peek_at_once, peek_beside, submit_at_once};
use esx_events::Refusal;
use esx_types::CALLERS;
use site::{ask_console, opened};
use std::alloc::Global;
use std::env;
use std::rt::Clock;
use std::sync::Wait;
use std::thread::Threads;
use std::time::Instant;

fn fault(refusal: Refusal) -> anyhow::Error {
    anyhow!("refused: {refusal:?}")
}

/// How many a second.
fn rate<R: Clock>(rt: &R, made: u64, start: Instant) -> Result<u128> {
    let micros = start.elapsed(rt)?.as_micros().max(1);
    Ok(u128::from(made) * 1_000_000 / micros)
}

fn time_console<R: Print + Clock>(rt: &R, alloc: Global, count: u32) -> Result<u128> {
    let mut console = opened(alloc).map_err(fault)?;
    let start = Instant::now(rt)?;
    ask_console(&mut console, count)?;
    let asked = rate(rt, u64::from(count), start)?;
    println!(rt; "console {}", console.log().len())?;
    Ok(asked)
}

fn time_submits<R: Threads + Wait + Sync + Print + Clock>(
    rt: &R,
    alloc: Global,
    threads: usize,
    count: u32,
) -> Result<u128>
    requires { (0 < threads) × (threads < CALLERS) }
{
    let (desk, passes) = desk_for(alloc, threads).map_err(fault)?;
    let start = Instant::now(rt)?;
    let answered = submit_at_once(rt, &desk, passes, count)?;
    let submits = rate(rt, u64::from(count) * threads as u64, start)?;
    println!(rt; "submits {:?}", answered.as_slice())?;
    Ok(submits)
}

fn time_peeks<R: Threads + Wait + Sync + Print + Clock>(
    rt: &R,
    alloc: Global,
    threads: usize,
    count: u32,
) -> Result<u128>
    requires { (0 < threads) × (threads < CALLERS) }
{
    let (desk, passes) = desk_for(alloc, threads).map_err(fault)?;
    let start = Instant::now(rt)?;
    let free = peek_at_once(rt, &desk, passes, count)?;
    let rounds = rate(rt, u64::from(count) * threads as u64, start)?;
    println!(rt; "peeks {:?}", free.as_slice())?;
    Ok(rounds.saturating_mul(u128::from(PEEKS)))
}

fn time_peeks_beside<R: Threads + Wait + Sync + Clock>(
    rt: &R,
    alloc: Global,
    threads: usize,
    count: u32,
) -> Result<u128>
    requires { (0 < threads) × (threads < CALLERS) }
{
    let (desk, passes, pass) = desk_with_one_more(alloc, threads).map_err(fault)?;
    let start = Instant::now(rt)?;
    let peeks = peek_beside(rt, &desk, passes, pass, count)?;
    rate(rt, peeks, start)
}

fn main(rt: HostRuntime) -> Result<()> {
    let word = env::args(&rt)?.nth(1).context("the count is missing")?;
    let count = word.parse::<u32>()?;
    let asked = time_console(&rt, rt.alloc(), count)?;
    eprintln!(rt; "a console alone: {asked} calls per second; at a desk, per second:")?;
    eprintln!(rt; "threads    submits      peeks  peeks while others submit")?;
    for threads in [1, 2, 4, 8] {
        let submits = time_submits(&rt, rt.alloc(), threads, count)?;
        let peeks = time_peeks(&rt, rt.alloc(), threads, count)?;
        let beside = time_peeks_beside(&rt, rt.alloc(), threads, count)?;
        eprintln!(rt; "{threads:>7} {submits:>10} {peeks:>10} {beside:>10}")?;
    }
    Ok(())
}
