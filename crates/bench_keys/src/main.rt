//! Times the table of keys and the listings of frames beside std's hash map, and `key` beside a plain digest.
//!
//! Words: what is timed (`table`, `listings`, `map`, `pages` or `all`), the table's room, how many hints
//! are put into it, how many operations of each kind are made on it, and how many pages are hashed. Sums
//! go to standard output, operations per second to standard error.
#![tactic(auto)]

mod digests;
mod listed;
mod maps;
mod numbers;
mod tables;
mod work;

use crate::work::Work;
use std::alloc::Global;
use std::collections::HashMap;
use std::rt::Clock;
use std::time::Instant;
use std::{env, io};

/// Prints how many operations a second were made since the start.
fn report<R: Eprint + Clock>(
    rt: &R,
    name: &str,
    operations: u32,
    start: Instant,
) -> io::Result<()> {
    let micros = start.elapsed(rt)?.as_micros().max(1);
    let rate = u128::from(operations) * 1_000_000 / micros;
    eprintln!(rt; "{name}: {rate} per second")
}

fn time_table<R: Print + Eprint + Clock>(rt: &R, alloc: Global, work: &Work) -> io::Result<()> {
    let start = Instant::now(rt)?;
    let mut keys = tables::made(alloc, work)?;
    report(rt, "table put", work.hints, start)?;
    let start = Instant::now(rt)?;
    let found = tables::look_up(&keys, work);
    report(rt, "table hint", work.operations, start)?;
    let start = Instant::now(rt)?;
    let traded = tables::trade(&mut keys, work);
    report(rt, "table take and put", work.operations, start)?;
    println!(rt; "table {found} {traded}")
}

fn time_listings<R: Print + Eprint + Clock>(rt: &R, alloc: Global, work: &Work) -> io::Result<()> {
    let start = Instant::now(rt)?;
    let mut listings = listed::made(alloc, work)?;
    report(rt, "listings trade in", work.hints, start)?;
    let start = Instant::now(rt)?;
    let found = listed::look_up(&listings, work);
    report(rt, "listings hinted_under", work.operations, start)?;
    let start = Instant::now(rt)?;
    let traded = listed::trade(&mut listings, work);
    report(rt, "listings trade out and in", work.operations, start)?;
    let start = Instant::now(rt)?;
    let hints = listings.hints(alloc)?.len();
    report(rt, "listings hints in order", work.hints, start)?;
    println!(rt; "listings {found} {traded} {hints}")
}

fn time_map<R: Print + Eprint + Clock>(rt: &R, alloc: Global, work: &Work) -> io::Result<()> {
    let start = Instant::now(rt)?;
    let mut map = HashMap::new(alloc);
    maps::fill(&mut map, work)?;
    report(rt, "map insert", work.hints, start)?;
    let start = Instant::now(rt)?;
    let found = maps::look_up(&map, work);
    report(rt, "map get", work.operations, start)?;
    let start = Instant::now(rt)?;
    let traded = maps::trade(&mut map, work)?;
    report(rt, "map remove and insert", work.operations, start)?;
    println!(rt; "map {found} {traded}")
}

fn time_pages<R: Print + Eprint + Clock>(rt: &R, alloc: Global, work: &Work) -> io::Result<()> {
    let mut page = vec![in alloc; 0; 4096]?;
    let start = Instant::now(rt)?;
    let keys = digests::keys(&mut page, work.pages);
    report(rt, "key of 4096 bytes", work.pages, start)?;
    let start = Instant::now(rt)?;
    let digests = digests::digests(&mut page, work.pages);
    report(rt, "digest of 4096 bytes", work.pages, start)?;
    println!(rt; "pages {keys} {digests}")
}

fn main(rt: HostRuntime) -> io::Result<()> {
    let mut words = env::args(&rt)?;
    words.next();
    let Some(part) = words.next() else {
        return Err(io::Error::from(io::ErrorKind::InvalidInput));
    };
    let work = Work::read(&mut words)?;
    let all = part.as_str() == "all";
    if all || part.as_str() == "table" {
        time_table(&rt, rt.alloc(), &work)?;
    }
    if all || part.as_str() == "listings" {
        time_listings(&rt, rt.alloc(), &work)?;
    }
    if all || part.as_str() == "map" {
        time_map(&rt, rt.alloc(), &work)?;
    }
    if all || part.as_str() == "pages" {
        time_pages(&rt, rt.alloc(), &work)?;
    }
    Ok(())
}
