//! Rows, texts and a desk, for runs in which one growth of memory is refused at any place (`tests/refused`).
//!
//! Standard input has rows and texts, each under a heading and with a line `==` between two of them. Of each of them, and
//! then of a desk, a line tells what it came to: where memory ran out, after how many steps, all of which are right.
#![tactic(auto)]

mod desk;
mod input;
mod outcomes;
mod row;
mod served;
mod texts;

use crate::desk::of_desk;
use crate::input::{ROOM, fill};
use crate::outcomes::Outcome;
use crate::row::of_row;
use crate::texts::{of_migration, of_scenario, of_session};
use desk_tests::calls::SITE;
use esx_types::Config;
use std::alloc::{AllocGlobal, Global};
use std::io::{self, Input, Print};
use std::sync::Wait;

const SMALL: Config = Config { frames: 8, ..SITE };

/// What a row or a text of a kind comes to.
fn outcome_of(alloc: Global, kind: &str, text: &str) -> Outcome {
    match kind {
        "row" => of_row(alloc, SITE, text),
        "small row" => of_row(alloc, SMALL, text),
        "session" => of_session(alloc, text),
        "migration" => of_migration(alloc, text),
        "scenario" => of_scenario(alloc, text),
        _ => Outcome::Otherwise,
    }
}

/// The heading, which is the first line, says the kind and what is shown.
fn tell_block<R: Print>(rt: &R, alloc: Global, block: &str) -> io::Result<()> {
    let (heading, text) = block.split_once('\n').unwrap_or((block, ""));
    let (kind, shows) = heading.split_once(": ").unwrap_or(("", heading));
    let outcome = outcome_of(alloc, kind, text);
    println!(rt; "{shows}: {outcome}")
}

fn tell_blocks<R: Print>(rt: &R, alloc: Global, blocks: &str) -> io::Result<()> {
    for block in blocks.split("==\n") {
        tell_block(rt, alloc, block)?;
    }
    Ok(())
}

/// Tells all that the input has.
fn tell_input<R: Print + Input>(rt: &R, alloc: Global) -> io::Result<()> {
    let mut room = [0; ROOM];
    let count = fill(&mut rt.reader(), &mut room)?;
    let blocks = str::from_utf8(room.get(..count).unwrap_or(&[])).unwrap_or("");
    tell_blocks(rt, alloc, blocks)
}

fn tell_all<R: Print + Input + AllocGlobal + Wait>(rt: &R) -> io::Result<()> {
    let alloc = rt.alloc();
    tell_input(rt, alloc)?;
    let outcome = of_desk(rt, alloc);
    println!(rt; "two callers at a desk: {outcome}")
}

fn main(rt: HostRuntime) -> io::Result<()> {
    tell_all(&rt)
}
