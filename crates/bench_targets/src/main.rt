//! Finds targets of made-up rows again and again, and prints a checksum of them.
//!
//! `bench_targets WAY ROWS NEED ROUNDS`: WAY is `chunks`, as the machine finds targets, or `pages`, page by
//! page; ROWS is how many machines there are, 0 to 255; NEED is how many pages are needed; ROUNDS is how
//! often it is done, each time with other rows.
#![tactic(auto)]

ghost use Rattle.std.specs.Prelude.{◌<◌};

use anyhow::{Context, Result, bail, ensure};
use esx_average::{Row, are_rows};
use esx_types::VmId;
use std::alloc::{AllocError, Global};
use std::env;

/// At what tax, in percent.
const TAU: u32 = 75;

/// Which targets to find, and how.
#[derive(Drop)]
struct Work {
    in_chunks: bool,
    rows: u8,
    need: u32,
    rounds: u32,
}

fn main(rt: HostRuntime) -> Result<()> {
    let mut words = Vec::new(rt.alloc());
    for word in env::args(&rt)?.skip(1) {
        words.push(word)?;
    }
    let work = read_work(words.as_slice())?;
    let sum = checksum(rt.alloc(), &work)?;
    println!(rt; "checksum {sum}")?;
    Ok(())
}

fn read_work(words: &[String]) -> Result<Work> {
    let [way, rows, need, rounds] = words else {
        bail!("usage: bench_targets chunks|pages ROWS NEED ROUNDS");
    };
    let in_chunks = match way.as_str() {
        "chunks" => true,
        "pages" => false,
        other => bail!("no way is called {other}"),
    };
    Ok(Work {
        in_chunks,
        rows: rows.parse::<u8>().context("reading ROWS")?,
        need: need.parse::<u32>().context("reading NEED")?,
        rounds: rounds.parse::<u32>().context("reading ROUNDS")?,
    })
}

/// Mixes all targets of all rounds into one number.
fn checksum(alloc: Global, work: &Work) -> Result<u64> {
    let mut sum = 0u64;
    for round in 0..work.rounds {
        let rows = make_rows(alloc, work.rows, round)?;
        ensure!(are_rows(rows.as_slice()), "the rows are out of range");
        let targets = if work.in_chunks {
            esx_average::targets(alloc, rows.as_slice(), work.need)?
        } else {
            esx_formulas::targets::targets(alloc, rows.as_slice(), work.need)?
        };
        for target in &targets {
            sum = sum.wrapping_mul(1_000_003).wrapping_add(u64::from(*target));
        }
    }
    Ok(sum)
}

/// Rows of machines of unlike shares, pages and activity, the same in each run of the program.
fn make_rows(alloc: Global, count: u8, round: u32) -> Result<Vec<Row>, AllocError> {
    let mut rows = Vec::new(alloc);
    for number in 0..count {
        let seed = u64::from(round) * 256 + u64::from(number);
        rows.push(Row {
            vm: VmId::new(number),
            shares: 1 + mixed(seed, 1, 1 << 20),
            pages: 32768 + mixed(seed, 2, 32769),
            floor: mixed(seed, 3, 1024),
            active: mixed(seed, 4, 65537),
            tau: TAU,
        })?;
    }
    Ok(rows)
}

/// A number below `bound` that looks like any other.
fn mixed(seed: u64, salt: u64, bound: u32) -> u32
    requires { 0 < bound }
    ensures { result < bound }
{
    let product = (seed.wrapping_mul(4).wrapping_add(salt)).wrapping_mul(0x9E37_79B9_7F4A_7C15);
    ((product >> 32) % u64::from(bound)) as u32
}
