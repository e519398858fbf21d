//! Texts whose parts are known where they are put: room is looked for once, for all of them.

ghost use Rattle.std.specs.Prelude.{◌≡◌, ◌+◌, ◌≤◌, ◌*◌, ◌++◌, ℕ, List, length, decimal, OnOk, IsUtf8};
ghost use Rattle.hex.specs.Hex.{encode_lower};
ghost use Rattle.esx_writing.specs.declared.buffer.TheConstants.{DIGITS, ROOM};
ghost use Rattle.esx_writing.specs.Writing.{Puts, sink_faults};

use crate::buffer::{AnswerBuffer, DIGITS, put, put_number};
use crate::pieces::put_hex;
use esx_types::{Sink, SinkFailed};

/// A text, or a part of one.
pub trait Line {
    ghost text: { Self → List ℕ };

    // At least its length.
    ghost most: { Self → ℕ };

    /// For how many bytes it needs room. More than a buffer has where there are too many.
    fn needs(&self) -> usize
        ensures { result ≤ ROOM → most self.now ≤ result };

    /// Adds it to what is held.
    fn push(&self, held: &mut AnswerBuffer)
        requires { length held.old + most self.now ≤ ROOM }
        ensures value { held.new ≡ held.old ++ text self.now }
        ensures fits { length (text self.now) ≤ most self.now }
        ensures utf8 { IsUtf8 (text self.now) };

    /// Puts it part by part.
    fn put_parts<W: Sink>(&self, sink: &mut W, held: &mut AnswerBuffer) -> Result<(), SinkFailed>
        ensures bytes { Puts (W.contents sink.old) held.old (W.contents sink.new) held.new (text self.now) result }
        ensures utf8 { OnOk result (IsUtf8 (text self.now)) }
        ensures failures { W.failures sink.new ≡ W.failures sink.old + sink_faults result }
        ensures flushes { W.flushes sink.new ≡ W.flushes sink.old };
}

/// Puts a text.
#[inline(never)]
fn put_str<W: Sink>(sink: &mut W, held: &mut AnswerBuffer, text: &str) -> Result<(), SinkFailed>
    ensures bytes { Puts (W.contents sink.old) held.old (W.contents sink.new) held.new text.now result }
    ensures failures { W.failures sink.new ≡ W.failures sink.old + sink_faults result }
    ensures flushes { W.flushes sink.new ≡ W.flushes sink.old }
{
    put(sink, held, text.as_bytes())
}

/// Adds a number's digits to what is held.
#[inline(always)]
fn push_digits(held: &mut AnswerBuffer, number: u64)
    requires { length held.old + DIGITS ≤ ROOM }
    ensures value { held.new ≡ held.old ++ decimal number }
    ensures fits { length (decimal number) ≤ DIGITS }
    ensures utf8 { IsUtf8 (decimal number) }
{
    held.push_number(number);
}

/// Puts a number's digits.
#[inline(never)]
fn put_digits<W: Sink>(sink: &mut W, held: &mut AnswerBuffer, number: u64) -> Result<(), SinkFailed>
    ensures bytes { Puts (W.contents sink.old) held.old (W.contents sink.new) held.new (decimal number) result }
    ensures utf8 { IsUtf8 (decimal number) }
    ensures failures { W.failures sink.new ≡ W.failures sink.old + sink_faults result }
    ensures flushes { W.flushes sink.new ≡ W.flushes sink.old }
{
    put_number(sink, held, number)
}

impl<'a> Line for &'a str {
    ghost text = { λ s. s.now };

    ghost most = { λ s. length s.now };

    #[inline(always)]
    fn needs(&self) -> usize {
        self.len()
    }

    #[inline(always)]
    fn push(&self, held: &mut AnswerBuffer) {
        held.push(self.as_bytes());
    }

    #[inline(always)]
    fn put_parts<W: Sink>(&self, sink: &mut W, held: &mut AnswerBuffer) -> Result<(), SinkFailed> {
        put_str(sink, held, self)
    }
}

impl Line for u64 {
    ghost text = { λ n. decimal n };

    ghost most = { λ _. DIGITS };

    #[inline(always)]
    fn needs(&self) -> usize {
        DIGITS
    }

    #[inline(always)]
    fn push(&self, held: &mut AnswerBuffer) {
        push_digits(held, *self);
    }

    #[inline(always)]
    fn put_parts<W: Sink>(&self, sink: &mut W, held: &mut AnswerBuffer) -> Result<(), SinkFailed> {
        put_digits(sink, held, *self)
    }
}

/// Bytes that are written in hex.
#[derive(Clone, Copy)]
pub struct Hex<'a> {
    pub bytes: &'a [u8],
}

impl<'a> Line for Hex<'a> {
    ghost text = { λ h. encode_lower h.bytes.now };

    ghost most = { λ h. 2 * length h.bytes.now };

    #[inline(always)]
    fn needs(&self) -> usize {
        self.bytes.len().saturating_mul(2)
    }

    #[inline(always)]
    fn push(&self, held: &mut AnswerBuffer) {
        held.push_hex(self.bytes);
    }

    #[inline(always)]
    fn put_parts<W: Sink>(&self, sink: &mut W, held: &mut AnswerBuffer) -> Result<(), SinkFailed> {
        put_hex(sink, held, self.bytes)
    }
}

impl<A: Line, B: Line> Line for (A, B) {
    ghost text = { λ p. A.text p.0 ++ B.text p.1 };

    ghost most = { λ p. A.most p.0 + B.most p.1 };

    #[inline(always)]
    fn needs(&self) -> usize {
        self.0.needs().saturating_add(self.1.needs())
    }

    #[inline(always)]
    fn push(&self, held: &mut AnswerBuffer) {
        self.0.push(held);
        self.1.push(held);
    }

    #[inline(always)]
    fn put_parts<W: Sink>(&self, sink: &mut W, held: &mut AnswerBuffer) -> Result<(), SinkFailed> {
        self.0.put_parts(sink, held)?;
        self.1.put_parts(sink, held)
    }
}

/// Puts a text.
#[inline(always)]
pub fn put_line<W: Sink, T: Line>(
    sink: &mut W,
    held: &mut AnswerBuffer,
    line: &T,
) -> Result<(), SinkFailed>
    ensures bytes { Puts (W.contents sink.old) held.old (W.contents sink.new) held.new (T.text line.now) result }
    ensures utf8 { OnOk result (IsUtf8 (T.text line.now)) }
    ensures failures { W.failures sink.new ≡ W.failures sink.old + sink_faults result }
    ensures flushes { W.flushes sink.new ≡ W.flushes sink.old }
{
    if line.needs() <= held.room() {
        line.push(held);
        return Ok(());
    }
    line.put_parts(sink, held)
}
