//! What is written, held back in a buffer of fixed size. No memory is taken on the way.

ghost use Rattle.std.specs.Prelude.{◌≡◌, ◌+◌, ◌<◌, ◌≤◌, ◌*◌, ◌++◌, ◌∷◌, [], length, take, decimal, IfOk, OnOk, OnErr, IsUtf8};
ghost use Rattle.hex.specs.Hex.{encode_lower};
ghost use Rattle.esx_writing.specs.Writing.{Writes, Puts, sink_faults};

use esx_types::{Sink, SinkFailed};
use itoa::{Buffer, write_digits};
use std::alloc::{AllocError, Global};
use std::marker::Model;

/// How many bytes of an answer are held before they are written.
pub const ROOM: usize = 16384;

/// The longest number, in digits.
pub const DIGITS: usize = 20;

/// The bytes of an answer that are held back, seen as their list: a front of a room of fixed size.
#[derive(Drop)]
pub struct AnswerBuffer {
    bytes: Vec<u8>,
    count: usize,
}

impl Model for AnswerBuffer {
    ghost use Rattle.std.specs.Prelude.{List, ℕ, ◌≡◌, ◌≤◌, take, vec_len};
    ghost use Rattle.esx_writing.specs.declared.buffer.TheConstants.{ROOM};

    ghost Value = { List ℕ };

    ghost view = { λ a. take a.count a.bytes.items };

    ghost invariant = { λ a. (vec_len a.bytes ≡ ROOM) × (a.count ≤ ROOM) };
}

/// Writes a digit behind the first `count` bytes.
#[inline(always)]
fn write_digit(bytes: &mut [u8], count: usize, digit: u8)
    requires digit { digit < 10 }
    requires room { count < length bytes.old }
    ensures { take (count + 1) bytes.new ≡ take count bytes.old ++ decimal digit }
{
    bytes[count] = b'0' + digit;
}

/// Writes a number of two digits behind the first `count` bytes.
#[inline(always)]
fn write_two_digits(bytes: &mut [u8], count: usize, number: u32)
    requires least { 10 ≤ number }
    requires most { number < 100 }
    requires room { count + 2 ≤ length bytes.old }
    ensures { take (count + 2) bytes.new ≡ take count bytes.old ++ decimal number }
{
    write_digit(bytes, count, (number / 10) as u8);
    write_digit(bytes, count + 1, (number % 10) as u8);
}

/// Writes a number of three digits behind the first `count` bytes.
#[inline(always)]
fn write_three_digits(bytes: &mut [u8], count: usize, number: u32)
    requires least { 100 ≤ number }
    requires most { number < 1000 }
    requires room { count + 3 ≤ length bytes.old }
    ensures { take (count + 3) bytes.new ≡ take count bytes.old ++ decimal number }
{
    write_two_digits(bytes, count, number / 10);
    write_digit(bytes, count + 2, (number % 10) as u8);
}

/// Writes a number of four digits behind the first `count` bytes.
#[inline(always)]
fn write_four_digits(bytes: &mut [u8], count: usize, number: u32)
    requires least { 1000 ≤ number }
    requires most { number < 10000 }
    requires room { count + 4 ≤ length bytes.old }
    ensures { take (count + 4) bytes.new ≡ take count bytes.old ++ decimal number }
{
    write_three_digits(bytes, count, number / 10);
    write_digit(bytes, count + 3, (number % 10) as u8);
}

impl AnswerBuffer {
    pub fn new(alloc: Global) -> Result<AnswerBuffer, AllocError>
        ensures { IfOk result (λ b. b ≡ []) }
    {
        Ok(AnswerBuffer {
            bytes: vec![in alloc; 0u8; ROOM]?,
            count: 0,
        })
    }

    /// For how many bytes there is room.
    #[inline(always)]
    pub fn room(&self) -> usize
        ensures { result + length self.now ≡ ROOM }
    {
        ROOM - self.count
    }

    /// Adds bytes for which there is room.
    #[inline(always)]
    pub fn push(&mut self, bytes: &[u8])
        requires { length self.old + length bytes.now ≤ ROOM }
        ensures { self.new ≡ self.old ++ bytes.now }
    {
        let end = self.count + bytes.len();
        self.bytes[self.count..end].copy_from_slice(bytes);
        self.count = end;
    }

    /// Adds a number where there is room for the longest.
    #[inline(always)]
    pub fn push_number(&mut self, number: u64)
        requires { length self.old + DIGITS ≤ ROOM }
        ensures { self.new ≡ self.old ++ decimal number }
    {
        if number < 10 {
            write_digit(&mut self.bytes, self.count, number as u8);
            self.count += 1;
            return;
        }
        self.push_longer(number);
    }

    /// The same of two digits or more. Up to four are made one by one.
    #[inline(never)]
    fn push_longer(&mut self, number: u64)
        requires least { 10 ≤ number }
        requires room { length self.old + DIGITS ≤ ROOM }
        ensures { self.new ≡ self.old ++ decimal number }
    {
        if number < 100 {
            write_two_digits(&mut self.bytes, self.count, number as u32);
            self.count += 2;
            return;
        }
        if number < 1000 {
            write_three_digits(&mut self.bytes, self.count, number as u32);
            self.count += 3;
            return;
        }
        if number < 10000 {
            write_four_digits(&mut self.bytes, self.count, number as u32);
            self.count += 4;
            return;
        }
        let mut room = [0u8; 2 * DIGITS];
        let start = write_digits(number, &mut room, DIGITS);
        self.bytes[self.count..self.count + DIGITS].copy_from_slice(&room[start..start + DIGITS]);
        self.count += DIGITS - start;
    }

    /// Adds bytes in hex, where there is room.
    pub fn push_hex(&mut self, bytes: &[u8])
        requires { length self.old + 2 * length bytes.now ≤ ROOM }
        ensures { self.new ≡ self.old ++ encode_lower bytes.now }
    {
        let end = self.count + 2 * bytes.len();
        let _ = hex::encode_to_slice(bytes, &mut self.bytes[self.count..end]);
        self.count = end;
    }

    fn as_slice(&self) -> &[u8]
        ensures { result.now ≡ self.now }
    {
        &self.bytes[..self.count]
    }

    /// Holds nothing.
    pub fn clear(&mut self)
        ensures { self.new ≡ [] }
    {
        self.count = 0;
    }
}

/// Writes all the bytes, past the buffer.
pub fn put_all<W: Sink>(sink: &mut W, bytes: &[u8]) -> Result<(), SinkFailed>
    ensures bytes { Writes (W.contents sink.old) (W.contents sink.new) bytes.now result }
    ensures failures { W.failures sink.new ≡ W.failures sink.old + sink_faults result }
    ensures flushes { W.flushes sink.new ≡ W.flushes sink.old }
{
    let mut rest = bytes;
    while !rest.is_empty() {
        let count = sink.write(rest)?;
        if count == 0 {
            return Err(SinkFailed);
        }
        let (_, later) = rest.split_at(count);
        rest = later;
    }
    Ok(())
}

/// Writes what is held. Nothing is held after it, whatever came.
pub fn write_held<W: Sink>(sink: &mut W, held: &mut AnswerBuffer) -> Result<(), SinkFailed>
    ensures bytes { Writes (W.contents sink.old) (W.contents sink.new) held.old result }
    ensures empty { held.new ≡ [] }
    ensures failures { W.failures sink.new ≡ W.failures sink.old + sink_faults result }
    ensures flushes { W.flushes sink.new ≡ W.flushes sink.old }
{
    let written = put_all(sink, held.as_slice());
    held.clear();
    written
}

/// Adds what is held to a text in memory, all of it or, where memory runs out, nothing. Nothing is held after it.
pub fn append_held(text: &mut Vec<u8>, held: &mut AnswerBuffer) -> Result<(), AllocError>
    ensures ok { OnOk result (text.new.items ≡ text.old.items ++ held.old) }
    ensures err { OnErr result (text.new.items ≡ text.old.items) }
    ensures empty { held.new ≡ [] }
{
    let added = text.extend_from_slice(held.as_slice());
    held.clear();
    added
}

/// Writes what is held, and then holds the bytes or writes them.
#[inline(never)]
fn put_behind<W: Sink>(
    sink: &mut W,
    held: &mut AnswerBuffer,
    bytes: &[u8],
) -> Result<(), SinkFailed>
    ensures bytes { Puts (W.contents sink.old) held.old (W.contents sink.new) held.new bytes.now result }
    ensures failures { W.failures sink.new ≡ W.failures sink.old + sink_faults result }
    ensures flushes { W.flushes sink.new ≡ W.flushes sink.old }
{
    write_held(sink, held)?;
    if bytes.len() <= held.room() {
        held.push(bytes);
        return Ok(());
    }
    put_all(sink, bytes)
}

/// Holds bytes, or writes what is held and them.
#[inline(always)]
pub fn put<W: Sink>(sink: &mut W, held: &mut AnswerBuffer, bytes: &[u8]) -> Result<(), SinkFailed>
    ensures bytes { Puts (W.contents sink.old) held.old (W.contents sink.new) held.new bytes.now result }
    ensures failures { W.failures sink.new ≡ W.failures sink.old + sink_faults result }
    ensures flushes { W.flushes sink.new ≡ W.flushes sink.old }
{
    if bytes.len() <= held.room() {
        held.push(bytes);
        return Ok(());
    }
    put_behind(sink, held, bytes)
}

/// The same of a number's digits.
#[inline(always)]
pub fn put_number<W: Sink>(
    sink: &mut W,
    held: &mut AnswerBuffer,
    number: u64,
) -> Result<(), SinkFailed>
    ensures bytes { Puts (W.contents sink.old) held.old (W.contents sink.new) held.new (decimal number) result }
    ensures utf8 { IsUtf8 (decimal number) }
    ensures failures { W.failures sink.new ≡ W.failures sink.old + sink_faults result }
    ensures flushes { W.flushes sink.new ≡ W.flushes sink.old }
{
    if DIGITS <= held.room() {
        held.push_number(number);
        return Ok(());
    }
    put_behind(sink, held, Buffer::new().format(number).as_bytes())
}
