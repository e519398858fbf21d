//! The texts of scenarios, and their reading.

use crate::draws::Draws;
use crate::job::Job;
use crate::line_text::LineText;
use crate::lines::put_turn;
use anyhow::{Result, bail};
use esx_scenario::{Scenario, parse_scenario};
use esx_types::Config;
use std::alloc::{AllocError, Global};

/// What a scenario of a job says: its site, how many machines it has, how many lines the trace of each, how many turns
/// a worker has, and what the workers' words begin with.
#[derive(Clone, Copy)]
pub struct Layout {
    pub job: Job,
    pub site: Config,
    pub machines: u64,
    pub lines: u32,
    pub turns: u32,
    pub seed: u64,
}

fn put_site(layout: Layout, text: &mut LineText) -> Result<(), AllocError> {
    text.word("version = 1\n\n[machine]\n")?;
    text.line("frames =", &[u64::from(layout.site.frames)])?;
    text.line("page =", &[u64::from(layout.site.page)])?;
    text.line("slots =", &[u64::from(layout.site.slots)])?;
    text.word("\n[run]\n")?;
    text.line("seed =", &[layout.seed])?;
    text.line("turns =", &[u64::from(layout.turns)])?;
    text.line("sample =", &[10])?;
    text.line("length =", &[100])
}

/// A machine of the job, without a trace.
fn put_machine(layout: Layout, vm: u64, text: &mut LineText) -> Result<(), AllocError> {
    let guests = layout.job.guests();
    text.word("\n[[vm]]\n")?;
    text.line("id =", &[vm])?;
    text.line("min =", &[guests.least])?;
    text.line("max =", &[guests.most])?;
    text.line("overhead =", &[1])?;
    text.line("shares =", &[vm.wrapping_mul(100).wrapping_add(500)])?;
    text.line("balloon =", &[guests.balloon])
}

fn put_trace(layout: Layout, draws: &mut Draws, text: &mut LineText) -> Result<(), AllocError> {
    text.word("trace = [\n")?;
    for line in 0..layout.lines {
        text.word("\"")?;
        put_turn(Job::Traces, draws, line, text)?;
        text.word("\",\n")?;
    }
    text.word("]\n")
}

/// The text of a scenario, with drawn traces.
pub fn put_scenario(
    layout: Layout,
    draws: &mut Draws,
    text: &mut LineText,
) -> Result<(), AllocError> {
    put_site(layout, text)?;
    for vm in 0..layout.machines {
        put_machine(layout, vm, text)?;
        put_trace(layout, draws, text)?;
    }
    Ok(())
}

/// The scenario of a text.
pub fn read_scenario(alloc: Global, text: &LineText) -> Result<Scenario> {
    let Ok(text) = str::from_utf8(text.bytes()) else {
        bail!("the scenario is no text");
    };
    match parse_scenario(alloc, text) {
        Ok(scenario) => Ok(scenario),
        Err(fault) => bail!("{fault}"),
    }
}
