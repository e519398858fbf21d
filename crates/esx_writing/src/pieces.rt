//! Texts as pieces: numbers, hex and columns, which are written with no memory taken on the way.

ghost use Rattle.std.specs.Prelude.{◌≡◌, ◌+◌, ◌≤◌, [], length, replicate, flat_map, OnOk, IsUtf8};
ghost use Rattle.hex.specs.Hex.{encode_lower};
ghost use Rattle.esx_writing.specs.Writing.{Writes, Puts, sink_faults, piece_text, right_in, left_in};

use crate::buffer::{AnswerBuffer, put, put_number, write_held};
use esx_types::{Sink, SinkFailed};
use itoa::Buffer;

/// How many bytes are made hex at once.
const HEX_AT_ONCE: usize = 64;

/// A part of an answer.
#[derive(Clone, Copy)]
pub enum Piece<'a> {
    Text(&'a str),
    Number(u64),
    Hex(&'a [u8]),
    /// A number that ends at the third place.
    Narrow(u64),
    /// A number that ends at the eighth place.
    Column(u64),
    /// A text that is filled up to the eighth place.
    State(&'a str),
}

/// The hex digits of some bytes, in a room for them.
fn hex_digits<'a>(bytes: &[u8], room: &'a mut [u8; 2 * HEX_AT_ONCE]) -> &'a [u8]
    requires { length bytes.now ≤ HEX_AT_ONCE }
    ensures { result.now ≡ encode_lower bytes.now }
{
    let digits = &mut room[..2 * bytes.len()];
    let _ = hex::encode_to_slice(bytes, digits);
    digits
}

/// Puts bytes in hex.
#[inline(never)]
pub fn put_hex<W: Sink>(
    sink: &mut W,
    held: &mut AnswerBuffer,
    bytes: &[u8],
) -> Result<(), SinkFailed>
    ensures bytes { Puts (W.contents sink.old) held.old (W.contents sink.new) held.new (encode_lower bytes.now) result }
    ensures failures { W.failures sink.new ≡ W.failures sink.old + sink_faults result }
    ensures flushes { W.flushes sink.new ≡ W.flushes sink.old }
{
    let mut room = [0u8; 2 * HEX_AT_ONCE];
    let mut rest = bytes;
    while !rest.is_empty() {
        let (now, later) = rest.split_at(rest.len().min(HEX_AT_ONCE));
        put(sink, held, hex_digits(now, &mut room))?;
        rest = later;
    }
    Ok(())
}

/// So many spaces.
fn spaces(count: usize) -> &'static str
    requires { count ≤ 8 }
    ensures { result.now ≡ replicate count 32 }
{
    match count {
        0 => "",
        1 => " ",
        2 => "  ",
        3 => "   ",
        4 => "    ",
        5 => "     ",
        6 => "      ",
        7 => "       ",
        _ => "        ",
    }
}

/// Puts a text behind the spaces that it lacks to a width.
#[inline(never)]
fn put_right<W: Sink>(
    sink: &mut W,
    held: &mut AnswerBuffer,
    width: usize,
    text: &str,
) -> Result<(), SinkFailed>
    requires { width ≤ 8 }
    ensures bytes { Puts (W.contents sink.old) held.old (W.contents sink.new) held.new (right_in width text.now) result }
    ensures utf8 { IsUtf8 (right_in width text.now) }
    ensures failures { W.failures sink.new ≡ W.failures sink.old + sink_faults result }
    ensures flushes { W.flushes sink.new ≡ W.flushes sink.old }
{
    let lacking = spaces(width.saturating_sub(text.len()));
    put(sink, held, lacking.as_bytes())?;
    put(sink, held, text.as_bytes())
}

/// Puts a text before the spaces that it lacks to a width.
#[inline(never)]
fn put_left<W: Sink>(
    sink: &mut W,
    held: &mut AnswerBuffer,
    width: usize,
    text: &str,
) -> Result<(), SinkFailed>
    requires { width ≤ 8 }
    ensures bytes { Puts (W.contents sink.old) held.old (W.contents sink.new) held.new (left_in width text.now) result }
    ensures utf8 { IsUtf8 (left_in width text.now) }
    ensures failures { W.failures sink.new ≡ W.failures sink.old + sink_faults result }
    ensures flushes { W.flushes sink.new ≡ W.flushes sink.old }
{
    let lacking = spaces(width.saturating_sub(text.len()));
    put(sink, held, text.as_bytes())?;
    put(sink, held, lacking.as_bytes())
}

/// Puts a piece.
#[inline(always)]
fn put_piece<W: Sink>(sink: &mut W, held: &mut AnswerBuffer, piece: Piece) -> Result<(), SinkFailed>
    ensures bytes { Puts (W.contents sink.old) held.old (W.contents sink.new) held.new (piece_text piece.entry) result }
    ensures utf8 { IsUtf8 (piece_text piece.entry) }
    ensures failures { W.failures sink.new ≡ W.failures sink.old + sink_faults result }
    ensures flushes { W.flushes sink.new ≡ W.flushes sink.old }
{
    match piece {
        Piece::Text(text) => put(sink, held, text.as_bytes()),
        Piece::Number(number) => put_number(sink, held, number),
        Piece::Hex(bytes) => put_hex(sink, held, bytes),
        Piece::Narrow(number) => put_right(sink, held, 3, Buffer::new().format(number)),
        Piece::Column(number) => put_right(sink, held, 8, Buffer::new().format(number)),
        Piece::State(text) => put_left(sink, held, 8, text),
    }
}

/// Puts pieces in order.
pub fn put_pieces<W: Sink>(
    sink: &mut W,
    held: &mut AnswerBuffer,
    pieces: &[Piece],
) -> Result<(), SinkFailed>
    ensures bytes { Puts (W.contents sink.old) held.old (W.contents sink.new) held.new (flat_map piece_text pieces.now) result }
    ensures utf8 { OnOk result (IsUtf8 (flat_map piece_text pieces.now)) }
    ensures failures { W.failures sink.new ≡ W.failures sink.old + sink_faults result }
    ensures flushes { W.flushes sink.new ≡ W.flushes sink.old }
{
    for piece in pieces {
        put_piece(sink, held, *piece)?;
    }
    Ok(())
}

/// Writes pieces in order, over an empty buffer.
pub fn write_pieces<W: Sink>(
    sink: &mut W,
    held: &mut AnswerBuffer,
    pieces: &[Piece],
) -> Result<(), SinkFailed>
    requires { held.old ≡ [] }
    ensures bytes { Writes (W.contents sink.old) (W.contents sink.new) (flat_map piece_text pieces.now) result }
    ensures empty { held.new ≡ [] }
    ensures failures { W.failures sink.new ≡ W.failures sink.old + sink_faults result }
    ensures flushes { W.flushes sink.new ≡ W.flushes sink.old }
{
    put_pieces(sink, held, pieces)?;
    write_held(sink, held)
}
