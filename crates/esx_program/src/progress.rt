//! How far a long work is, told in one line that is written over.

use esx_types::{Sink, SinkFailed};
use std::sync::atomic::{AtomicU64, Ordering};

/// How often a work of a known size is told.
const PARTS: u64 = 100;

/// After how many steps a work of an unknown size is told.
const STEPS: u64 = 65536;

/// How many steps of a work are done. Threads share it.
#[derive(Drop)]
pub struct Progress<'a, P> {
    to: Option<&'a P>,
    most: Option<u64>,
    what: &'static str,
    done: AtomicU64,
}

impl<'a, P: Print> Progress<'a, P> {
    /// A work of at most so many steps, where that is known, told as a number of `what`. Without `to`
    /// nothing is told.
    pub fn new(to: Option<&'a P>, most: Option<u64>, what: &'static str) -> Progress<'a, P> {
        Progress {
            to,
            most,
            what,
            done: AtomicU64::new(0),
        }
    }

    /// How many steps there are between two lines.
    fn part(&self) -> u64 {
        match self.most {
            Some(most) => (most / PARTS).max(1),
            None => STEPS,
        }
    }

    /// More steps are done.
    pub fn add(&self, steps: u64) {
        if let Some(to) = self.to {
            let before = self.done.fetch_add(steps, Ordering::SeqCst);
            let done = before.wrapping_add(steps);
            let part = self.part().max(1);
            if before / part != done / part {
                self.tell(to, done);
            }
        }
    }

    fn tell(&self, to: &P, done: u64) {
        // A line that cannot be told is left out.
        let _ = match self.most {
            Some(most) => print!(to; "\r{done} of {most} {}", self.what),
            None => print!(to; "\r{done} {}", self.what),
        };
    }

    /// The work is over: tells what was done, and ends the line.
    pub fn end(&self) {
        if let Some(to) = self.to {
            self.tell(to, self.done.load(Ordering::SeqCst));
            let _ = println!(to;);
        }
    }
}

/// A sink whose bytes are counted as the steps of a work.
#[derive(Drop)]
pub struct Watched<'a, W: Sink + Drop, P> {
    writer: W,
    progress: &'a Progress<'a, P>,
}

impl<'a, W: Sink + Drop, P> Watched<'a, W, P> {
    ghost use Rattle.std.specs.Prelude.{◌≡◌};

    pub fn new(writer: W, progress: &'a Progress<'a, P>) -> Watched<'a, W, P>
        ensures { result.writer ≡ writer }
    {
        Watched { writer, progress }
    }

    /// Gives the sink back.
    pub fn into_writer(self) -> W
        ensures { result ≡ self.entry.writer }
    {
        self.writer
    }
}

impl<'a, W: Sink + Drop, P: Print> Sink for Watched<'a, W, P> {
    ghost contents = { λ s. W.contents s.writer };

    ghost waiting = { λ s. W.waiting s.writer };

    ghost calls = { λ s. W.calls s.writer };

    ghost failures = { λ s. W.failures s.writer };

    ghost flushes = { λ s. W.flushes s.writer };

    fn write(&mut self, bytes: &[u8]) -> Result<usize, SinkFailed> {
        let written = self.writer.write(bytes);
        if let Ok(count) = written {
            self.progress.add(count as u64);
        }
        written
    }

    fn flush(&mut self) -> Result<(), SinkFailed> {
        self.writer.flush()
    }
}
