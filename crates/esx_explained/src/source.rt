//! A source that explains the lines that it gives.

ghost use Rattle.std.specs.Prelude.{◌≡◌, ◌==◌, ◌<◌, IfSome, IfNone, IfOk, length, position};
ghost use Rattle.esx_text.specs.Lines.{HasNoFeed, line_of};
ghost use Rattle.esx_explained.specs.Input.{at_start, next_line, after, at_end, after_part};
ghost use Rattle.esx_explained.specs.Known.{IsKnown};
ghost use Rattle.esx_explained.specs.Reasons.{Explains};
ghost use Rattle.esx_explained.specs.Telling.{held_line, next_number};

use crate::line::explained;
use crate::reason::Explanation;
use esx_text::LONGEST;
use esx_types::{Source, SourceFailed};
use std::alloc::{AllocError, Global};
use std::fmt;
use std::marker::Model;

/// How many bytes are held of a line: those of the longest line, and a carriage return.
const ROOM: usize = LONGEST + 1;

/// Why a line is no command, with its number, as it is printed.
#[derive(Clone, Copy)]
struct ToldLine<'a> {
    number: u64,
    explanation: Explanation<'a>,
}

impl<'a> fmt::Display for ToldLine<'a> {
    ghost use Rattle.std.specs.Prelude.{Some};
    ghost use Rattle.esx_explained.specs.Telling.{told_line};

    ghost output = { λ t. Some (told_line t.number t.explanation) };

    fn fmt<W: fmt::Write>(&self, f: &mut fmt::Formatter<W>) -> fmt::Result {
        let (number, explanation) = (self.number, self.explanation);
        write!(f, "line {number}: {explanation}")
    }
}

/// The lines of an input, as they are put together from its parts.
#[derive(Drop)]
struct Lines {
    alloc: Global,
    held: Vec<u8>,
    long: bool,
    count: u64,
}

impl Model for Lines {
    ghost use Rattle.std.specs.Prelude.{◌≤◌, vec_len, vec_capacity};
    ghost use Rattle.esx_explained.specs.declared.source.TheConstants.{ROOM};
    ghost use Rattle.esx_explained.specs.Input.{ReadSoFar};

    ghost Value = { ReadSoFar };

    ghost view = { λ l. record { count = l.count; front = l.held.items; long = l.long } };

    ghost invariant = { λ l. (vec_len l.held ≤ ROOM) × (ROOM ≤ vec_capacity l.held) };
}

/// A piece without the carriage return at its end.
fn without_return(piece: &[u8]) -> &[u8]
    ensures { result.now ≡ line_of piece.now }
{
    match piece.len() {
        0 => piece,
        length => {
            let last = length - 1;
            if piece[last] == b'\r' {
                let (line, _) = piece.split_at(last);
                line
            } else {
                piece
            }
        }
    }
}

/// Where the first line feed stands.
fn line_end(bytes: &[u8]) -> Option<usize>
    ensures place { result ≡ position (λ b. b == 10) bytes.now }
    ensures within { IfSome result (λ at. at < length bytes.now) }
{
    bytes.iter().position(|byte| *byte == b'\n')
}

impl Lines {
    /// It takes the room for the longest line.
    fn new(alloc: Global) -> Result<Lines, AllocError>
        ensures { IfOk result (λ l. l ≡ at_start) }
    {
        let held = Vec::with_capacity(alloc, ROOM)?;
        Ok(Lines {
            alloc,
            held,
            long: false,
            count: 0,
        })
    }

    /// A part of a line. Of a line that is too long the bytes behind the longest are left out. It takes no memory.
    fn add(&mut self, part: &[u8])
        requires { HasNoFeed part.now }
        ensures { self.new ≡ after self.old part.now }
    {
        let room = ROOM - self.held.len();
        if part.len() <= room {
            self.held.extend_from_slice(part).unwrap();
            return;
        }
        let (kept, _) = part.split_at(room);
        self.held.extend_from_slice(kept).unwrap();
        self.long = true;
    }

    /// What is held of the line, without a carriage return at its end where a line feed stands behind it.
    fn line(&self, is_ended: bool) -> &[u8]
        ensures { result.now ≡ held_line self.now.front self.now.long is_ended }
    {
        let held = self.held.as_slice();
        if is_ended && !self.long {
            return without_return(held);
        }
        held
    }

    /// What is printed of the line, if it is no command. What memory is wanting for is left out.
    fn told(&self, is_ended: bool) -> Option<ToldLine<'_>>
        ensures number { IfSome result (λ t. t.number ≡ next_number self.now.count) }
        ensures unknown { IfSome result (λ t. IsKnown (held_line self.now.front self.now.long is_ended) → ⊥) }
        ensures explains { IfSome result (λ t. Explains (held_line self.now.front self.now.long is_ended) t.explanation) }
    {
        let number = self.count.saturating_add(1);
        match explained(self.alloc, self.line(is_ended)) {
            Ok(found) => match found {
                Some(explanation) => Some(ToldLine {
                    number,
                    explanation,
                }),
                None => None,
            },
            Err(_) => None,
        }
    }

    /// The line is over: tells why it is no command, where it is none, and begins the next.
    fn end<P: Print>(&mut self, to: &P, is_ended: bool)
        ensures { self.new ≡ next_line self.old }
    {
        if let Some(told) = self.told(is_ended) {
            // What cannot be told is left out.
            let _ = println!(to; "{told}");
        }
        self.count = self.count.saturating_add(1);
        self.held.clear();
        self.long = false;
    }

    /// The bytes that were read.
    fn look<P: Print>(&mut self, to: &P, bytes: &[u8])
        ensures { self.new ≡ after self.old bytes.now }
    {
        let mut rest = bytes;
        while let Some(at) = line_end(rest) {
            let (part, _) = rest.split_at(at);
            let (_, later) = rest.split_at(at + 1);
            self.add(part);
            self.end(to, true);
            rest = later;
        }
        self.add(rest);
    }

    /// The input is over: what is left of it is a line, unless it is empty.
    fn finish<P: Print>(&mut self, to: &P)
        ensures { self.new ≡ at_end self.old }
    {
        if !self.held.is_empty() {
            self.end(to, false);
        }
    }

    /// What a read gave: the next bytes, or none at the end.
    fn look_at<P: Print>(&mut self, to: &P, part: &[u8])
        ensures { self.new ≡ after_part self.old part.now }
    {
        if part.is_empty() {
            self.finish(to);
        } else {
            self.look(to, part);
        }
    }
}

/// The lines of which nothing is read, where there is somebody to tell and memory for the longest.
fn lines_told<P>(alloc: Global, to: Option<&P>) -> Option<Lines>
    ensures start { IfSome result (λ l. l ≡ at_start) }
    ensures nobody { IfNone to.entry (result ≡ None) }
{
    match to {
        Some(_) => Lines::new(alloc).ok(),
        None => None,
    }
}

/// A source that gives what another gives, and tells why a line of it is no command, a line each: `line 3: ..`. Lines
/// are counted from 1 on, and a carriage return before the line feed is no part of one.
#[derive(Drop)]
pub struct Explained<'a, R: Source + Drop, P> {
    reader: R,
    to: Option<&'a P>,
    lines: Option<Lines>,
}

impl<'a, R: Source + Drop, P: Print> Explained<'a, R, P> {
    ghost use Rattle.std.specs.Prelude.{◌≡◌, IfSome};
    ghost use Rattle.esx_explained.specs.Input.{at_start};

    /// Takes the room for a line, where there is somebody to tell. Without `to`, or without memory for that room, nothing
    /// is told.
    pub fn new(alloc: Global, reader: R, to: Option<&'a P>) -> Explained<'a, R, P>
        ensures reader { result.reader ≡ reader }
        ensures to { result.to ≡ to.entry }
        ensures start { IfSome result.lines (λ l. l ≡ at_start) }
    {
        let lines = lines_told(alloc, to);
        Explained { reader, to, lines }
    }

    /// Gives the source back.
    pub fn into_reader(self) -> R
        ensures { result ≡ self.entry.reader }
    {
        self.reader
    }
}

impl<'a, R: Source + Drop, P: Print> Source for Explained<'a, R, P> {
    ghost use Rattle.std.specs.Prelude.{◌≡◌, ◌+◌, ◌≤◌, IfOk, IfSome, length};
    ghost use Rattle.std.specs.Io.KnownBytes.{ReadConsumes};
    ghost use Rattle.esx_types.specs.Ends.{call_failures, gave_nothing};
    ghost use Rattle.esx_explained.specs.Input.{after_read};

    ghost remaining = { λ s. R.remaining s.reader };

    ghost calls = { λ s. R.calls s.reader };

    ghost failures = { λ s. R.failures s.reader };

    ghost empty_reads = { λ s. R.empty_reads s.reader };

    ghost asked = { λ s. R.asked s.reader };

    fn read(&mut self, buffer: &mut [u8]) -> Result<usize, SourceFailed>
        ensures bound { IfOk result (λ n. n ≤ length buffer.new) }
        ensures bytes { ReadConsumes (R.remaining self.old.reader) (R.remaining self.new.reader) result buffer.new }
        ensures calls { R.calls self.new.reader ≡ R.calls self.old.reader + 1 }
        ensures failures { R.failures self.new.reader ≡ R.failures self.old.reader + call_failures result }
        ensures empty_reads { R.empty_reads self.new.reader ≡ R.empty_reads self.old.reader + gave_nothing result }
        ensures asked { R.asked self.new.reader ≡ R.asked self.old.reader + length buffer.old }

        // Where there is somebody to tell, the lines are those of what was read before and of this.
        ensures lines { IfSome self.old.to (λ to. self.new.lines ≡ after_read self.old.lines result buffer.new) }
        ensures to { self.new.to ≡ self.old.to }
    {
        let read = self.reader.read(buffer);
        if let (Ok(count), Some(to), Some(lines)) = (&read, self.to, &mut self.lines) {
            lines.look_at(to, &buffer[..*count]);
        }
        read
    }
}
