//! Work on the tables, for measuring them: `bench_tables SIZE COUNT WORK..` does each work at a table of
//! that size, so many times, and prints a checksum of what the table answered.
#![tactic(auto)]

mod draws;
mod work;

use anyhow::{Context, Result, ensure};
use std::env;
use work::Work;

fn main(rt: HostRuntime) -> Result<()> {
    let mut words = env::args(&rt)?.skip(1);
    let size = number(words.next())?;
    let count = number(words.next())?;
    ensure!(size > 0, "a table of no rows");
    for word in words {
        let work = Work::named(word.as_str()).context("no such work")?;
        let sum = work.run(rt.alloc(), size, count)?;
        println!(rt; "{word} {sum}")?;
    }
    Ok(())
}

fn number(word: Option<String>) -> Result<u32> {
    let word = word.context("a number is missing")?;
    Ok(word.parse::<u32>()?)
}
