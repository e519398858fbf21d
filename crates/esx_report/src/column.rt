//! What stands between the separators of a table's line.

ghost use Rattle.std.specs.Prelude.{◌≡◌, ◌+◌, ◌-◌, [], List, ℕ, length, codes, replicate};
ghost use Rattle.esx_writing.specs.Writing.{Puts, sink_faults, right_in, left_in};
ghost use Rattle.esx_report.specs.Fields.{field_text, cell_text};

use crate::field::{Field, field_length, put_field};
use esx_types::{Sink, SinkFailed};
use esx_writing::{AnswerBuffer, put};

/// What stands in a column of some kind of table.
pub trait Column {
    ghost separator: { List ℕ };

    ghost text: { Self → List ℕ };

    /// What stands before each column but the first.
    fn separator() -> &'static str
        ensures { result.now ≡ separator };

    /// Puts what stands in it.
    fn put<W: Sink>(&self, sink: &mut W, held: &mut AnswerBuffer) -> Result<(), SinkFailed>
        ensures bytes { Puts (W.contents sink.old) held.old (W.contents sink.new) held.new (text self.now) result }
        ensures failures { W.failures sink.new ≡ W.failures sink.old + sink_faults result }
        ensures flushes { W.flushes sink.new ≡ W.flushes sink.old };
}

/// A field at the right or at the left of a column of that width. One that is wider pushes.
#[derive(Clone, Copy)]
pub enum Cell {
    Right(u8, Field),
    Left(u8, Field),
}

/// The most blanks of a column.
const BLANKS: [u8; 255] = [b' '; 255];

/// So many blanks.
fn blanks(count: u8) -> &'static [u8]
    ensures { result.now ≡ replicate count 32 }
{
    &BLANKS[..usize::from(count)]
}

/// How many blanks a field lacks to a width.
fn lacking(width: u8, field: Field) -> u8
    ensures { result ≡ width - length (field_text (codes "-") field) }
{
    let length = field_length(1, field);
    match u8::try_from(length) {
        Ok(length) => width.saturating_sub(length),
        Err(_) => 0,
    }
}

/// Puts a field at the right of its column.
fn put_right<W: Sink>(
    sink: &mut W,
    held: &mut AnswerBuffer,
    width: u8,
    field: Field,
) -> Result<(), SinkFailed>
    ensures bytes { Puts (W.contents sink.old) held.old (W.contents sink.new) held.new (right_in width (field_text (codes "-") field)) result }
    ensures failures { W.failures sink.new ≡ W.failures sink.old + sink_faults result }
    ensures flushes { W.flushes sink.new ≡ W.flushes sink.old }
{
    put(sink, held, blanks(lacking(width, field)))?;
    put_field(sink, held, "-", field)
}

/// Puts a field at the left of its column.
fn put_left<W: Sink>(
    sink: &mut W,
    held: &mut AnswerBuffer,
    width: u8,
    field: Field,
) -> Result<(), SinkFailed>
    ensures bytes { Puts (W.contents sink.old) held.old (W.contents sink.new) held.new (left_in width (field_text (codes "-") field)) result }
    ensures failures { W.failures sink.new ≡ W.failures sink.old + sink_faults result }
    ensures flushes { W.flushes sink.new ≡ W.flushes sink.old }
{
    put_field(sink, held, "-", field)?;
    put(sink, held, blanks(lacking(width, field)))
}

impl Column for Field {
    ghost separator = { codes "," };

    ghost text = { field_text [] };

    fn separator() -> &'static str {
        ","
    }

    fn put<W: Sink>(&self, sink: &mut W, held: &mut AnswerBuffer) -> Result<(), SinkFailed> {
        put_field(sink, held, "", *self)
    }
}

impl Column for Cell {
    ghost separator = { codes " " };

    ghost text = { cell_text };

    fn separator() -> &'static str {
        " "
    }

    fn put<W: Sink>(&self, sink: &mut W, held: &mut AnswerBuffer) -> Result<(), SinkFailed> {
        match *self {
            Cell::Right(width, field) => put_right(sink, held, width, field),
            Cell::Left(width, field) => put_left(sink, held, width, field),
        }
    }
}
