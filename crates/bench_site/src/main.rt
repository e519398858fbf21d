//! Plays made-up jobs at a site through its texts, and prints a digest of all that was answered.
//!
//! `bench_site JOB SEED LINES`: JOB is one of those of `job.rt`, or `all`, which plays each once; SEED is a number below
//! 2^32 that draws the job's lines; LINES is how many commands are drawn.
#![tactic(auto)]

mod digest;
mod draws;
mod job;
mod line_text;
mod lines;
mod opening;
mod play;
mod scenarios;
mod traces;

use anyhow::{Context, Result, bail};
use job::{JOBS, Job};
use play::play;
use std::env;

fn main(rt: HostRuntime) -> Result<()> {
    let mut words = Vec::new(rt.alloc());
    for word in env::args(&rt)?.skip(1) {
        words.push(word)?;
    }
    let [name, seed, lines] = words.as_slice() else {
        bail!("usage: bench_site JOB SEED LINES");
    };
    let seed = seed.parse::<u32>().context("reading SEED")?;
    let lines = lines.parse::<u32>().context("reading LINES")?;
    for job in JOBS {
        if name.as_str() == "all" || name.as_str() == job.name() {
            let played = play(rt.alloc(), job, seed, lines)?;
            println!(rt;
                "{} lines {} bytes {} digest {:016x}",
                job.name(),
                played.lines,
                played.bytes,
                played.digest
            )?;
        }
    }
    Ok(())
}
