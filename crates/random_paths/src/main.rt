//! Draws paths of calls from fixed seeds, makes them at a console, and compares each reply with what a plain tree and the
//! plain program come to, and the console's book with that of the events on the path, row by row.
//!
//! It prints how often each kind of event was accepted and refused, each refusal met and each other call answered, and
//! fails where something differs, or was met too seldom.
#![tactic(auto)]

mod advice;
mod answering;
mod books;
mod contents;
mod copies;
mod draws;
mod fault;
mod guide;
mod met;
mod plain;
mod play;
mod readings;
mod same;
mod site;
mod tally;
mod tree;

use crate::draws::Draws;
use crate::play::Play;
use crate::site::shape_of;
use crate::tally::Tally;
use anyhow::{Result, bail, ensure};
use std::alloc::Global;

const PATHS: u32 = 1600;

const SEED: u64 = 20021209;

/// Makes the path of a number.
fn make_path(alloc: Global, number: u32, tally: &mut Tally) -> Result<()> {
    let shape = shape_of(number);
    let seed = SEED.wrapping_add(u64::from(number));
    let mut draws = Draws::new(alloc, shape, seed);
    let mut play = Play::open(alloc, shape)?;
    if let Err(fault) = play.go(&mut draws, tally) {
        let step = play.calls;
        bail!("path {number}, seed {seed}, call {step}: {fault}");
    }
    Ok(())
}

fn main(rt: HostRuntime) -> Result<()> {
    let mut tally = Tally::new();
    for number in 0..PATHS {
        make_path(rt.alloc(), number, &mut tally)?;
    }
    tally.print(&rt)?;
    ensure!(tally.is_whole(), "something was met too seldom");
    Ok(())
}
