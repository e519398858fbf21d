//! The lines of tables.

ghost use Rattle.std.specs.Prelude.{◌≡◌, ◌+◌, ◌++◌, ◌∷◌, flat_map, codes};
ghost use Rattle.esx_writing.specs.Writing.{Puts, sink_faults};
ghost use Rattle.esx_report.specs.Rows.{columns_text};

use crate::column::Column;
use esx_types::{Sink, SinkFailed};
use esx_writing::{AnswerBuffer, put};

/// Puts a column behind a separator.
fn put_next<C: Column, W: Sink>(
    sink: &mut W,
    held: &mut AnswerBuffer,
    column: &C,
) -> Result<(), SinkFailed>
    ensures bytes { Puts (W.contents sink.old) held.old (W.contents sink.new) held.new (C.separator ++ C.text column.now) result }
    ensures failures { W.failures sink.new ≡ W.failures sink.old + sink_faults result }
    ensures flushes { W.flushes sink.new ≡ W.flushes sink.old }
{
    put(sink, held, C::separator().as_bytes())?;
    column.put(sink, held)
}

/// Puts columns, each behind a separator.
fn put_more<C: Column, W: Sink>(
    sink: &mut W,
    held: &mut AnswerBuffer,
    columns: &[C],
) -> Result<(), SinkFailed>
    ensures bytes { Puts (W.contents sink.old) held.old (W.contents sink.new) held.new (flat_map (λ y. C.separator ++ C.text y) columns.now) result }
    ensures failures { W.failures sink.new ≡ W.failures sink.old + sink_faults result }
    ensures flushes { W.flushes sink.new ≡ W.flushes sink.old }
{
    for column in columns {
        put_next(sink, held, column)?;
    }
    Ok(())
}

/// Puts the columns behind the first, and the line's end.
fn put_rest<C: Column, W: Sink>(
    sink: &mut W,
    held: &mut AnswerBuffer,
    columns: &[C],
) -> Result<(), SinkFailed>
    ensures bytes { Puts (W.contents sink.old) held.old (W.contents sink.new) held.new (flat_map (λ y. C.separator ++ C.text y) columns.now ++ codes "\n") result }
    ensures failures { W.failures sink.new ≡ W.failures sink.old + sink_faults result }
    ensures flushes { W.flushes sink.new ≡ W.flushes sink.old }
{
    put_more(sink, held, columns)?;
    put(sink, held, b"\n")
}

/// Puts a line that begins with a column.
fn put_columns<C: Column, W: Sink>(
    sink: &mut W,
    held: &mut AnswerBuffer,
    first: &C,
    more: &[C],
) -> Result<(), SinkFailed>
    ensures bytes { Puts (W.contents sink.old) held.old (W.contents sink.new) held.new (columns_text C.separator C.text (first.now ∷ more.now)) result }
    ensures failures { W.failures sink.new ≡ W.failures sink.old + sink_faults result }
    ensures flushes { W.flushes sink.new ≡ W.flushes sink.old }
{
    first.put(sink, held)?;
    put_rest(sink, held, more)
}

/// Puts a line of columns.
pub fn put_row<C: Column, W: Sink>(
    sink: &mut W,
    held: &mut AnswerBuffer,
    columns: &[C],
) -> Result<(), SinkFailed>
    ensures bytes { Puts (W.contents sink.old) held.old (W.contents sink.new) held.new (columns_text C.separator C.text columns.now) result }
    ensures failures { W.failures sink.new ≡ W.failures sink.old + sink_faults result }
    ensures flushes { W.flushes sink.new ≡ W.flushes sink.old }
{
    match columns.split_first() {
        None => put(sink, held, b"\n"),
        Some((first, more)) => put_columns(sink, held, first, more),
    }
}
