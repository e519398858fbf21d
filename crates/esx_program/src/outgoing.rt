//! The answers of a console on their way out.
//!
//! They wait in a buffer until more input is asked for, so that a person at a terminal and a program on
//! a pipe get every answer at once, and a million lines do not cost a million writes.

ghost use Rattle.std.specs.Prelude.{◌≡◌, ◌+◌, ◌-◌, ◌<◌, ◌≤◌, ◌++◌, [], min, take, drop, length, Ok, IfOk, OnOk, IsTrue, ◌↔◌};
ghost use Rattle.std.specs.Io.KnownBytes.{WriteAppends, append_known};
ghost use Rattle.esx_types.specs.Ends.{call_failures, no_calls, write_failures};
ghost use Rattle.esx_program.specs.Streams.{Sends};

use esx_types::{Counts, Sink, SinkFailed};
use std::alloc::{AllocError, Global};
use std::marker::Model;
use std::sync::ledger::{Blank, Ledger};

/// How many bytes of answers wait at most.
const ROOM: usize = 65536;

/// Bytes that wait, seen as their list.
#[derive(Drop)]
pub struct Waiting {
    bytes: Vec<u8>,
}

impl Model for Waiting {
    ghost use Rattle.std.specs.Prelude.{List, ℕ, ◌≤◌, vec_len, vec_capacity};
    ghost use Rattle.esx_program.specs.declared.outgoing.TheConstants.{ROOM};

    ghost Value = { List ℕ };

    ghost view = { λ w. w.bytes.items };

    ghost invariant = { λ w. (vec_len w.bytes ≤ ROOM) × (ROOM ≤ vec_capacity w.bytes) };
}

impl Waiting {
    pub fn new(alloc: Global) -> Result<Waiting, AllocError>
        ensures { IfOk result (λ w. w ≡ []) }
    {
        Ok(Waiting {
            bytes: Vec::with_capacity(alloc, ROOM)?,
        })
    }

    fn is_full(&self) -> bool
        ensures { IsTrue result ↔ (ROOM ≤ length self.now) }
    {
        self.bytes.len() == ROOM
    }

    fn as_slice(&self) -> &[u8]
        ensures { result.now ≡ self.now }
    {
        self.bytes.as_slice()
    }

    /// Adds a front of the bytes, as long as there is room for. It takes no memory.
    fn add(&mut self, bytes: &[u8]) -> usize
        ensures count { result ≡ min (length bytes.now) (ROOM - length self.old) }
        ensures added { self.new ≡ self.old ++ take result bytes.now }
    {
        let count = bytes.len().min(ROOM - self.bytes.len());
        let (front, _) = bytes.split_at(count);
        self.bytes.extend_from_slice(front).unwrap();
        count
    }

    /// Takes a front away.
    fn cut(&mut self, count: usize)
        requires { count ≤ length self.old }
        ensures { self.new ≡ drop count self.old }
    {
        let length = self.bytes.len();
        self.bytes.as_mut_slice().copy_within(count..length, 0);
        self.bytes.truncate(length - count);
    }
}

/// Writes what waits.
fn send<W: Sink>(sink: &mut W, waiting: &mut Waiting) -> Result<(), SinkFailed>
    ensures bytes { Sends (W.contents sink.old) (W.contents sink.new) waiting.old waiting.new }
    ensures sent { OnOk result (waiting.new ≡ []) }
    ensures failures { W.failures sink.new ≡ W.failures sink.old + call_failures result }
    ensures flushes { W.flushes sink.new ≡ W.flushes sink.old }
{
    while !waiting.as_slice().is_empty() {
        let count = sink.write(waiting.as_slice())?;
        if count == 0 {
            return Err(SinkFailed);
        }
        waiting.cut(count);
    }
    Ok(())
}

/// Writes what waits where there is no more room.
fn make_room<W: Sink>(sink: &mut W, waiting: &mut Waiting) -> Result<(), SinkFailed>
    ensures bytes { Sends (W.contents sink.old) (W.contents sink.new) waiting.old waiting.new }
    ensures room { OnOk result (length waiting.new < ROOM) }
    ensures still { length waiting.old < ROOM → (sink.new ≡ sink.old) × (waiting.new ≡ waiting.old) }
    ensures failures { W.failures sink.new ≡ W.failures sink.old + call_failures result }
    ensures flushes { W.flushes sink.new ≡ W.flushes sink.old }
{
    if waiting.is_full() {
        send(sink, waiting)?;
    }
    Ok(())
}

/// A sink whose bytes wait until it is flushed or has no more room for them.
#[derive(Drop)]
pub struct Outgoing<W: Sink + Drop, L: Ledger> {
    sink: W,
    waiting: Waiting,
    // Only its calls are counted here. What fails or is flushed is counted by the sink behind it.
    counts: Counts<L>,
}

impl<W: Sink + Drop, L: Ledger> Outgoing<W, L> {
    pub fn new(sink: W, waiting: Waiting, blank: Blank) -> Outgoing<W, L>
        requires name { blank.name ≡ L.name }
        requires parts { blank.parts ≡ L.parts }
        requires four { 4 ≤ blank.parts }
        ensures sink { result.sink ≡ sink }
        ensures waiting { result.waiting ≡ waiting }
        ensures none { result.counts ≡ no_calls }
    {
        Outgoing {
            sink,
            waiting,
            counts: Counts::new(blank),
        }
    }

    /// The sink behind it. What waits is not written.
    pub fn into_sink(self) -> W
        ensures { result ≡ self.sink }
    {
        self.sink
    }
}

impl<W: Sink + Drop, L: Ledger> Sink for Outgoing<W, L> {
    ghost contents = { λ s. append_known (W.contents s.sink) s.waiting };

    ghost waiting = { λ s. W.waiting s.sink ++ s.waiting };

    ghost calls = { λ s. s.counts.calls };

    ghost failures = { λ s. W.failures s.sink };

    ghost flushes = { λ s. W.flushes s.sink };

    fn write(&mut self, bytes: &[u8]) -> Result<usize, SinkFailed>
        ensures bound { IfOk result (λ n. n ≤ length bytes.now) }
        ensures bytes { WriteAppends (append_known (W.contents self.old.sink) self.old.waiting)
            (append_known (W.contents self.new.sink) self.new.waiting) result bytes.now }
        ensures calls { self.new.counts.calls ≡ self.old.counts.calls + 1 }
        ensures failures { W.failures self.new.sink ≡ W.failures self.old.sink + write_failures (length bytes.now) result }
        ensures flushes { W.flushes self.new.sink ≡ W.flushes self.old.sink }

        // While there is room the bytes wait, and nothing is written.
        ensures waits { length self.old.waiting < ROOM → self.new.sink ≡ self.old.sink }
    {
        self.counts.count_done();
        make_room(&mut self.sink, &mut self.waiting)?;
        Ok(self.waiting.add(bytes))
    }

    fn flush(&mut self) -> Result<(), SinkFailed> {
        self.counts.count_done();
        send(&mut self.sink, &mut self.waiting)?;
        self.sink.flush()
    }
}
