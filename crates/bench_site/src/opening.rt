//! Scenarios of large sites that are read and opened, one after another.

use crate::digest::Digest;
use crate::draws::Draws;
use crate::job::Job;
use crate::line_text::LineText;
use crate::lines::put_turn;
use crate::play::{Played, served};
use crate::scenarios::{Layout, put_scenario, read_scenario};
use anyhow::{Result, bail};
use esx_console::Console;
use esx_opening::open_site;
use esx_types::Config;
use std::alloc::Global;

/// How many commands are drawn for each site.
const SITE_TURNS: u32 = 100;

/// A site of the job, with fewer frames and slots by draws: 2^16 to 2^20 of each.
fn drawn_site(draws: &mut Draws) -> Config {
    let mut site = Job::Opening.site();
    site.frames >>= draws.below(5) as u32;
    site.slots >>= draws.below(5) as u32;
    site
}

/// Reads and opens a drawn scenario: one of the job's machines for each 2^17 frames and slots, with a short trace.
fn opened(alloc: Global, draws: &mut Draws, text: &mut LineText) -> Result<Console> {
    let site = drawn_site(draws);
    let room = u64::from(site.frames.min(site.slots)) >> 17;
    let layout = Layout {
        job: Job::Opening,
        site,
        machines: room.min(Job::Opening.guests().count),
        lines: 40,
        turns: 1000,
        seed: draws.word() >> 1,
    };
    text.clear();
    put_scenario(layout, draws, text)?;
    let scenario = read_scenario(alloc, text)?;
    match open_site(alloc, &scenario) {
        Ok(console) => Ok(console),
        Err(_) => bail!("the site is not opened"),
    }
}

/// Plays the job of openings.
pub fn play_openings(alloc: Global, seed: u32, turns: u32) -> Result<Played> {
    let mut draws = Draws::new(seed);
    let mut digest = Digest::new();
    let mut text = LineText::new(alloc);
    let mut lines = 0u64;
    for site in 0..turns.div_ceil(SITE_TURNS) {
        let mut console = opened(alloc, &mut draws, &mut text)?;
        text.clear();
        let first = site.saturating_mul(SITE_TURNS);
        for turn in first..turns.min(first.saturating_add(SITE_TURNS)) {
            put_turn(Job::Opening, &mut draws, turn, &mut text)?;
        }
        let room = Vec::new(alloc);
        let (count, bytes) = served(alloc, &mut console, text.bytes(), room)?;
        lines = lines.wrapping_add(count);
        digest.add(bytes.as_slice());
    }
    Ok(Played {
        lines,
        bytes: digest.bytes,
        digest: digest.hash,
    })
}
