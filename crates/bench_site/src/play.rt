//! How a job is played: its lines are served in blocks, and what is answered is digested.

ghost use Rattle.std.specs.Prelude.{◌≡◌, ◌≤◌};

use crate::digest::Digest;
use crate::draws::Draws;
use crate::job::Job;
use crate::line_text::LineText;
use crate::lines::{put_opening, put_turn};
use crate::opening::play_openings;
use crate::traces::play_traces;
use anyhow::{Result, bail};
use esx_check::{Again, Checked, check_text, replay_calls};
use esx_console::Console;
use esx_session::{Request, parse_script};
use esx_text::{print_session, serve};
use esx_types::{Config, MemorySink, MemorySource, Rows};
use std::alloc::Global;
use std::marker::Brand;
use std::sync::ledger::{Blank, Ledger};

/// How many bytes of lines are served at once, at least.
const BLOCK: usize = 1 << 20;

/// How many bytes are read at once, at most.
const PIECE: usize = 1 << 16;

/// What a job came to.
#[derive(Drop)]
pub struct Played {
    pub lines: u64,
    pub bytes: u64,
    pub digest: u64,
}

/// Serves the lines of a text, and gives how many they are and the answers, in a room that is handed over, by counts of
/// the reads and the writes.
fn answers<L: Ledger, M: Ledger>(
    alloc: Global,
    console: &mut Console,
    text: &[u8],
    room: Vec<u8>,
    reads: Blank,
    writes: Blank,
) -> Result<(u64, Vec<u8>)>
    requires read_name { reads.name ≡ L.name }
    requires read_parts { (reads.parts ≡ L.parts) × (4 ≤ reads.parts) }
    requires write_name { writes.name ≡ M.name }
    requires write_parts { (writes.parts ≡ M.parts) × (4 ≤ writes.parts) }
{
    let mut source = MemorySource::<L>::new(text, PIECE, reads);
    let mut sink = MemorySink::<M>::new(room, writes);
    match serve(alloc, console, 0, &mut source, &mut sink) {
        Ok(lines) => Ok((lines, sink.into_bytes())),
        Err(fault) => bail!("{fault}"),
    }
}

/// Makes calls at a site that is opened for them, and gives the replies, by a count of the writes.
fn replies<L: Ledger>(
    alloc: Global,
    site: Config,
    requests: Rows<Request>,
    blank: Blank,
) -> Option<Vec<u8>>
    requires name { blank.name ≡ L.name }
    requires parts { (blank.parts ≡ L.parts) × (4 ≤ blank.parts) }
{
    let Ok(site) = site.check() else {
        return None;
    };
    let Ok(mut again) = Again::open(alloc, site) else {
        return None;
    };
    let mut sink = MemorySink::<L>::new(Vec::new(alloc), blank);
    match replay_calls(&mut again, requests, &mut sink) {
        Ok(()) => Some(sink.into_bytes()),
        Err(_) => None,
    }
}

/// Serves the lines of a text with counts that begin here, and gives how many they are and the answers, in a room that is
/// handed over.
pub fn served(
    alloc: Global,
    console: &mut Console,
    text: &[u8],
    room: Vec<u8>,
) -> Result<(u64, Vec<u8>)> {
    answers::<Brand, Brand>(alloc, console, text, room, Blank::new(4), Blank::new(4))
}

/// Makes the calls of a session's text again, and gives the replies.
fn replayed(alloc: Global, text: &str) -> Result<Vec<u8>> {
    let Ok(script) = parse_script(alloc, text) else {
        bail!("the session is not read");
    };
    match replies::<Brand>(alloc, script.site, script.requests, Blank::new(4)) {
        Some(bytes) => Ok(bytes),
        None => bail!("the session is not replayed"),
    }
}

/// Prints the session of a console, checks it and replays it.
fn go_through(alloc: Global, console: &Console, digest: &mut Digest) -> Result<()> {
    let text = print_session(alloc, console)?;
    digest.add(text.as_str().as_bytes());
    match check_text(alloc, text.as_str()) {
        Ok(Checked::Same(count)) => digest.add(&count.to_le_bytes()),
        Ok(Checked::Differs(number)) => bail!("call {number} differs"),
        Err(_) => bail!("the session is not read"),
    }
    let replies = replayed(alloc, text.as_str())?;
    digest.add(replies.as_slice());
    Ok(())
}

/// Plays a job whose commands all go to one site.
fn play_lines(alloc: Global, job: Job, seed: u32, turns: u32) -> Result<Played> {
    let Ok(mut console) = Console::open(alloc, job.site()) else {
        bail!("the site is not opened");
    };
    let mut draws = Draws::new(seed);
    let mut digest = Digest::new();
    let mut text = LineText::new(alloc);
    let mut room = Vec::new(alloc);
    let mut lines = 0u64;
    put_opening(job, &mut text)?;
    for turn in 0..turns {
        put_turn(job, &mut draws, turn, &mut text)?;
        if text.bytes().len() >= BLOCK || turns - turn == 1 {
            let (count, bytes) = served(alloc, &mut console, text.bytes(), room)?;
            lines = lines.wrapping_add(count);
            digest.add(bytes.as_slice());
            room = bytes;
            room.clear();
            text.clear();
        }
    }
    if job == Job::Records {
        go_through(alloc, &console, &mut digest)?;
    }
    // The program ends with its site, and the system takes the memory back as a whole.
    std::mem::forget(console);
    Ok(Played {
        lines,
        bytes: digest.bytes,
        digest: digest.hash,
    })
}

/// Plays a job of so many drawn commands.
pub fn play(alloc: Global, job: Job, seed: u32, turns: u32) -> Result<Played> {
    match job {
        Job::Opening => play_openings(alloc, seed, turns),
        Job::Traces => play_traces(alloc, seed, turns),
        _ => play_lines(alloc, job, seed, turns),
    }
}
