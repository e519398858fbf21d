//! A sink that passes on only the lines that begin with a question mark.

ghost use Rattle.std.specs.Prelude.{◌≡◌, ◌≤◌, ◌+◌, [], ℕ, List, Option, None, Some, IfOk, if◌then◌else◌, length, take};
ghost use Rattle.std.specs.Io.KnownBytes.{Appends, WriteAppends};
ghost use Rattle.esx_types.specs.Ends.{no_calls, write_failures};
ghost use Rattle.esx_recording.specs.Questions.{IsOfOneLine, question_lines};

use crate::seen::Seen;
use esx_types::{Counts, Sink, SinkFailed};
use memchr::memchr;
use std::marker::{Brand, Model, PhantomData};
use std::sync::ledger::{Blank, Ledger};

/// What a sink had taken before. `Brand` stands for any: the proof of a call picks it.
pub trait Before {
    ghost taken: { Option (List ℕ) };
}

impl Before for Brand {
    ghost taken = { None };
}

/// A sink over another. Of what is written to it, in pieces of any size, it passes on only the lines that begin with a
/// question mark, and drops the others.
#[derive(Drop)]
pub struct Questions<S: Sink + Drop, B: Before, L: Ledger> {
    sink: S,
    seen: Seen,
    // Only its calls are counted here. What fails or is flushed is counted by the sink behind it.
    counts: Counts<L>,
    before: PhantomData<B>,
}

impl<S: Sink + Drop, B: Before, L: Ledger> Model for Questions<S, B, L> {
    ghost use Rattle.std.specs.Io.KnownBytes.{Appends};
    ghost use Rattle.esx_recording.specs.Questions.{Passing, question_lines};

    ghost Value = { Passing S };

    ghost view = { λ s. record { sink = s.sink; written = s.seen; tally = s.counts } };

    ghost invariant = { λ s. Appends B.taken (S.contents s.sink) (question_lines s.seen) };
}

impl<S: Sink + Drop, B: Before, L: Ledger> Questions<S, B, L> {
    pub fn new(sink: S, blank: Blank) -> Questions<S, B, L>
        requires before { B.taken ≡ S.contents sink }
        requires name { blank.name ≡ L.name }
        requires parts { blank.parts ≡ L.parts }
        requires four { 4 ≤ blank.parts }
        ensures { result ≡ record { sink = sink; written = []; tally = no_calls } }
    {
        Questions {
            sink,
            seen: Seen::new(),
            counts: Counts::new(blank),
            before: PhantomData,
        }
    }

    /// The sink behind it.
    pub fn into_sink(self) -> S
        ensures sink { result ≡ self.sink }
        ensures passed { Appends B.taken (S.contents result) (question_lines self.written) }
    {
        self.sink
    }
}

/// The front of a text up to its first line feed and with it, or all of it where it has none.
fn first_line(text: &[u8]) -> &[u8]
    ensures front { (length result.now ≤ length text.now) × (result.now ≡ take (length result.now) text.now) }
    ensures some { length result.now ≡ 0 → length text.now ≡ 0 }
    ensures one { IsOfOneLine result.now }
{
    match memchr(b'\n', text) {
        Some(at) => &text[..at + 1],
        None => text,
    }
}

/// Passes bytes on, or drops them all.
fn pass<S: Sink>(sink: &mut S, bytes: &[u8], on: bool) -> Result<usize, SinkFailed>
    ensures bound { IfOk result (λ n. n ≤ length bytes.now) }
    ensures bytes { WriteAppends (S.contents sink.old) (S.contents sink.new) result (if on then bytes.now else []) }
    ensures failures { S.failures sink.new ≡ S.failures sink.old + write_failures (length bytes.now) result }
    ensures flushes { S.flushes sink.new ≡ S.flushes sink.old }
{
    if on {
        return sink.write(bytes);
    }
    Ok(bytes.len())
}

impl<S: Sink + Drop, B: Before, L: Ledger> Sink for Questions<S, B, L> {
    ghost contents = { λ s. Some s.written };

    ghost waiting = { λ s. S.waiting s.sink };

    ghost calls = { λ s. s.tally.calls };

    ghost failures = { λ s. S.failures s.sink };

    ghost flushes = { λ s. S.flushes s.sink };

    fn write(&mut self, bytes: &[u8]) -> Result<usize, SinkFailed> {
        self.counts.count_done();
        let piece = first_line(bytes);
        let asks = self.seen.asks(piece);
        let count = pass(&mut self.sink, piece, asks)?;
        let (taken, _) = piece.split_at(count);
        self.seen.add(taken);
        Ok(count)
    }

    fn flush(&mut self) -> Result<(), SinkFailed> {
        self.counts.count_done();
        self.sink.flush()
    }
}
