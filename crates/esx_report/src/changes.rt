//! The table of changes of place, as comma-separated values.

ghost use Rattle.std.specs.Prelude.{◌≡◌, ◌+◌, flat_map};
ghost use Rattle.esx_writing.specs.Writing.{Puts, sink_faults};
ghost use Rattle.esx_report.specs.Changes.{change_head, spot_number, change_fields, change_row, changes_csv};

use crate::field::Field;
use crate::row::put_row;
use esx_passages::Passage;
use esx_story::Spot;
use esx_types::{Sink, SinkFailed};
use esx_writing::{AnswerBuffer, put_line};

/// A change of place of a page, and what is known of its call.
///
/// `at` is the event that it came with, numbered along the path from 1; `node` is what that event made, `call` the number of
/// the call and `by` its caller.
#[derive(Clone, Copy)]
pub struct ChangeLine {
    pub at: u32,
    pub node: u32,
    pub call: u32,
    pub by: u16,
    pub passage: Passage,
}

/// The frame, the slot or the epoch of a place.
fn spot_number(spot: Spot) -> Field
    ensures { result ≡ spot_number spot }
{
    match spot {
        Spot::Untouched => Field::Empty,
        Spot::Here { frame, .. } => Field::Number(frame as u64),
        Spot::Out { slot } => Field::Number(slot as u64),
        Spot::Lent { epoch } => Field::Number(epoch as u64),
    }
}

fn change_fields(line: &ChangeLine) -> [Field; 11]
    ensures { result ≡ change_fields line.now }
{
    let passage = &line.passage;
    [
        Field::Number(line.at as u64),
        Field::Number(line.node as u64),
        Field::Number(line.call as u64),
        Field::Number(line.by as u64),
        Field::Number(passage.vm.number() as u64),
        Field::Number(passage.page as u64),
        Field::How(passage.how),
        Field::Spot(passage.from),
        spot_number(passage.from),
        Field::Spot(passage.to),
        spot_number(passage.to),
    ]
}

/// The head of the table.
pub fn put_change_head<W: Sink>(sink: &mut W, held: &mut AnswerBuffer) -> Result<(), SinkFailed>
    ensures bytes { Puts (W.contents sink.old) held.old (W.contents sink.new) held.new change_head result }
    ensures failures { W.failures sink.new ≡ W.failures sink.old + sink_faults result }
    ensures flushes { W.flushes sink.new ≡ W.flushes sink.old }
{
    put_line(
        sink,
        held,
        &"event,node,call,by,vm,page,how,from,from_at,to,to_at\n",
    )
}

/// The row of a change.
pub fn put_change<W: Sink>(
    sink: &mut W,
    held: &mut AnswerBuffer,
    line: &ChangeLine,
) -> Result<(), SinkFailed>
    ensures bytes { Puts (W.contents sink.old) held.old (W.contents sink.new) held.new (change_row line.now) result }
    ensures failures { W.failures sink.new ≡ W.failures sink.old + sink_faults result }
    ensures flushes { W.flushes sink.new ≡ W.flushes sink.old }
{
    put_row(sink, held, &change_fields(line))
}

/// The rows of changes.
fn put_change_rows<W: Sink>(
    sink: &mut W,
    held: &mut AnswerBuffer,
    lines: &[ChangeLine],
) -> Result<(), SinkFailed>
    ensures bytes { Puts (W.contents sink.old) held.old (W.contents sink.new) held.new (flat_map change_row lines.now) result }
    ensures failures { W.failures sink.new ≡ W.failures sink.old + sink_faults result }
    ensures flushes { W.flushes sink.new ≡ W.flushes sink.old }
{
    for line in lines {
        put_change(sink, held, line)?;
    }
    Ok(())
}

/// The table of changes: its head, and a row for each line, in their order.
pub fn put_changes<W: Sink>(
    sink: &mut W,
    held: &mut AnswerBuffer,
    lines: &[ChangeLine],
) -> Result<(), SinkFailed>
    ensures bytes { Puts (W.contents sink.old) held.old (W.contents sink.new) held.new (changes_csv lines.now) result }
    ensures failures { W.failures sink.new ≡ W.failures sink.old + sink_faults result }
    ensures flushes { W.flushes sink.new ≡ W.flushes sink.old }
{
    put_change_head(sink, held)?;
    put_change_rows(sink, held, lines)
}
