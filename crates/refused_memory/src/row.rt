//! Rows: lines that are served, and the answers that are wanted, each behind `> `.

use crate::outcomes::Outcome;
use crate::served::served;
use esx_text::ServeFault;
use esx_types::Config;
use std::alloc::Global;

/// More than any row writes.
const ROOM: usize = 1024;

/// How many of the wanted answers the bytes are, the first ones and each whole.
fn whole_answers(wanted: &str, bytes: &[u8]) -> Option<usize> {
    let mut rest = bytes;
    let mut count: usize = 0;
    for answer in wanted.split("> ") {
        match rest.strip_prefix(answer.as_bytes()) {
            Some(behind) => rest = behind,
            None => break,
        }
        count = count.saturating_add(1);
    }
    if rest.is_empty() { Some(count) } else { None }
}

/// What came of a row with so many answers, the first of which were written.
fn judged(served: Result<u64, ServeFault>, written: Option<usize>, all: usize) -> Outcome {
    let Some(written) = written else {
        return Outcome::Otherwise;
    };
    match served {
        Ok(lines) if lines == all as u64 && written == all => Outcome::Right,
        Err(ServeFault::OutOfMemory) => Outcome::OutOfMemory(written),
        _ => Outcome::Otherwise,
    }
}

/// A step is an answer that is written whole. As many lines are read in all as there are answers.
pub fn of_row(alloc: Global, site: Config, text: &str) -> Outcome {
    let (input, wanted) = text.split_once("> ").unwrap_or((text, ""));
    let mut room = [0; ROOM];
    let Ok((result, count)) = served(alloc, site, input.as_bytes(), &mut room) else {
        return Outcome::OutOfMemory(0);
    };
    let written = room.get(..count).unwrap_or(&[]);
    judged(
        result,
        whole_answers(wanted, written),
        wanted.split("> ").count(),
    )
}
