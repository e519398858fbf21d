//! Lines that are put part by part.

ghost use Rattle.std.specs.Prelude.{◌≡◌, ◌+◌, flat_map};
ghost use Rattle.esx_writing.specs.Writing.{Puts, sink_faults};
ghost use Rattle.esx_report.specs.Fields.{part_text};

use crate::column::{Cell, Column};
use crate::field::{Field, put_field};
use esx_types::{Sink, SinkFailed};
use esx_writing::{AnswerBuffer, put};

/// A part of a line.
#[derive(Clone, Copy)]
pub enum Part<'a> {
    Text(&'a str),
    Bytes(&'a [u8]),
    Shown(Field),
    Cell(Cell),
}

/// Puts a part.
fn put_part<W: Sink>(sink: &mut W, held: &mut AnswerBuffer, part: Part) -> Result<(), SinkFailed>
    ensures bytes { Puts (W.contents sink.old) held.old (W.contents sink.new) held.new (part_text part.entry) result }
    ensures failures { W.failures sink.new ≡ W.failures sink.old + sink_faults result }
    ensures flushes { W.flushes sink.new ≡ W.flushes sink.old }
{
    match part {
        Part::Text(text) => put(sink, held, text.as_bytes()),
        Part::Bytes(bytes) => put(sink, held, bytes),
        Part::Shown(field) => put_field(sink, held, "-", field),
        Part::Cell(cell) => cell.put(sink, held),
    }
}

/// Puts parts in order.
pub fn put_parts<W: Sink>(
    sink: &mut W,
    held: &mut AnswerBuffer,
    parts: &[Part],
) -> Result<(), SinkFailed>
    ensures bytes { Puts (W.contents sink.old) held.old (W.contents sink.new) held.new (flat_map part_text parts.now) result }
    ensures failures { W.failures sink.new ≡ W.failures sink.old + sink_faults result }
    ensures flushes { W.flushes sink.new ≡ W.flushes sink.old }
{
    for part in parts {
        put_part(sink, held, *part)?;
    }
    Ok(())
}
