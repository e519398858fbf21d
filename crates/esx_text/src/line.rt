//! Lines, as they are read in parts.

ghost use Rattle.std.specs.Prelude.{◌≡◌, ◌+◌, ◌++◌, [], if◌then◌else◌, ℕ, List, IfOk, MatchOption, drop, take};
ghost use Rattle.std.specs.Str.{IsUtf8, IsCharBoundary};
ghost use Rattle.esx_text.specs.Lines.{EndsAt, Holds, HasNoFeed, input_bytes, line_of};

use crate::answer::LONGEST;
use memchr::memchr;
use std::alloc::{AllocError, Global};
use std::marker::Model;

/// How many bytes are held of a line: those of the longest line, and a carriage return.
const ROOM: usize = LONGEST + 1;

/// A part of the input: text, or bytes of which that is not known.
#[derive(Clone, Copy)]
pub enum Input<'a> {
    Text(&'a str),
    Bytes(&'a [u8]),
}

impl<'a> Input<'a> {
    /// Bytes, as text where they are text.
    pub fn of(bytes: &'a [u8]) -> Input<'a>
        ensures { input_bytes result ≡ bytes.now }
    {
        match str::from_utf8(bytes) {
            Ok(text) => Input::Text(text),
            Err(_) => Input::Bytes(bytes),
        }
    }

    #[inline]
    pub fn bytes(self) -> &'a [u8]
        ensures { result.now ≡ input_bytes self.entry }
    {
        match self {
            Input::Text(text) => text.as_bytes(),
            Input::Bytes(bytes) => bytes,
        }
    }

    /// The text, where the bytes are one. It tests them only where that is not known.
    pub fn text(self) -> Option<&'a str>
        ensures { MatchOption result (IsUtf8 (input_bytes self.entry) → ⊥) (λ text. text.now ≡ input_bytes self.entry) }
    {
        match self {
            Input::Text(text) => Some(text),
            Input::Bytes(bytes) => str::from_utf8(bytes).ok(),
        }
    }

    /// What stands before the first line feed, which is at `at`, and what behind it.
    pub fn split_at_end(self, at: usize) -> (Input<'a>, Input<'a>)
        requires { EndsAt (input_bytes self) at }
        ensures piece { input_bytes result.0 ≡ take at (input_bytes self.entry) }
        ensures later { input_bytes result.1 ≡ drop (at + 1) (input_bytes self.entry) }
    {
        match self {
            Input::Text(text) => {
                let (piece, later) = split_text(text, at);
                (Input::Text(piece), Input::Text(later))
            }
            Input::Bytes(bytes) => (Input::Bytes(&bytes[..at]), Input::Bytes(&bytes[at + 1..])),
        }
    }

    /// A piece without the carriage return at its end.
    pub fn without_return(self) -> Input<'a>
        ensures { input_bytes result ≡ line_of (input_bytes self.entry) }
    {
        match self {
            Input::Text(text) => {
                let (line, _) = text.split_at(line_length(text.as_bytes()));
                Input::Text(line)
            }
            Input::Bytes(bytes) => {
                let (line, _) = bytes.split_at(line_length(bytes));
                Input::Bytes(line)
            }
        }
    }
}

/// Where the first line feed stands.
pub fn line_end(bytes: &[u8]) -> Option<usize>
    ensures { MatchOption result (HasNoFeed bytes.now) (λ at. EndsAt bytes.now at) }
{
    memchr(b'\n', bytes)
}

/// The text before the first line feed, which is at `at`, and that behind it.
fn split_text(text: &str, at: usize) -> (&str, &str)
    requires { EndsAt text.now at }
    ensures piece { result.0.now ≡ take at text.now }
    ensures later { result.1.now ≡ drop (at + 1) text.now }
{
    let (piece, _) = text.split_at(at);
    let (_, later) = text.split_at(at + 1);
    (piece, later)
}

/// How many bytes of a piece stand before the carriage return at its end, or all where none does.
fn line_length(piece: &[u8]) -> usize
    ensures front { take result piece.now ≡ line_of piece.now }
    ensures boundary { IsCharBoundary piece.now result }
{
    match piece.len() {
        0 => 0,
        length => {
            let last = length - 1;
            if piece[last] == b'\r' { last } else { length }
        }
    }
}

/// The first, or the other.
pub fn either<'a>(first: bool, one: Input<'a>, other: Input<'a>) -> Input<'a>
    ensures { input_bytes result ≡ (if first then input_bytes one.entry else input_bytes other.entry) }
{
    if first { one } else { other }
}

/// What is held of a line that may go on.
#[derive(Drop)]
pub struct LineBuffer {
    bytes: Vec<u8>,
    long: bool,
}

impl Model for LineBuffer {
    ghost use Rattle.std.specs.Prelude.{◌≤◌, vec_len, vec_capacity};
    ghost use Rattle.esx_text.specs.declared.line.TheConstants.{ROOM};
    ghost use Rattle.esx_text.specs.Lines.{Held};

    ghost Value = { Held };

    ghost view = { λ l. record { front = l.bytes.items; long = l.long } };

    ghost invariant = { λ l. (vec_len l.bytes ≤ ROOM) × (ROOM ≤ vec_capacity l.bytes) };
}

impl LineBuffer {
    pub fn new(alloc: Global) -> Result<LineBuffer, AllocError>
        ensures { IfOk result (λ l. Holds l []) }
    {
        Ok(LineBuffer {
            bytes: Vec::with_capacity(alloc, ROOM)?,
            long: false,
        })
    }

    pub fn clear(&mut self)
        ensures { Holds self.new [] }
    {
        self.bytes.clear();
        self.long = false;
    }

    /// Adds the next bytes. It takes no memory.
    pub fn extend(&mut self, bytes: &[u8])
        ensures { (piece : List ℕ) → Holds self.old piece → Holds self.new (piece ++ bytes.now) }
    {
        let room = ROOM - self.bytes.len();
        if bytes.len() <= room {
            self.bytes.extend_from_slice(bytes).unwrap();
            return;
        }
        let (kept, _) = bytes.split_at(room);
        self.bytes.extend_from_slice(kept).unwrap();
        self.long = true;
    }

    /// Adds the piece that ends the line, unless it is all of the line and no longer than what is held of one:
    /// such a piece is not copied. It gives whether it is one.
    pub fn end(&mut self, piece: &[u8]) -> bool
        ensures { (start : List ℕ) → Holds self.old start
            → Holds (record { front = if result then piece.now else self.new.front; long = self.new.long }) (start ++ piece.now) }
    {
        if self.bytes.is_empty() && piece.len() <= ROOM {
            return true;
        }
        self.extend(piece);
        false
    }

    /// The bytes held, from the line's beginning on.
    pub fn bytes(&self) -> &[u8]
        ensures { result.now ≡ self.now.front }
    {
        self.bytes.as_slice()
    }

    /// Whether the line has more bytes than are held.
    pub fn is_long(&self) -> bool
        ensures { result ≡ self.now.long }
    {
        self.long
    }
}
