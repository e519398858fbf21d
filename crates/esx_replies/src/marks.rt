//! The list of marks.

ghost use Rattle.std.specs.Prelude.{◌≡◌, ◌+◌, OnOk, IsUtf8, flat_map};
ghost use Rattle.esx_events.specs.Names.{IsName};
ghost use Rattle.esx_writing.specs.Writing.{Puts, sink_faults};
ghost use Rattle.esx_replies.specs.Signs.{behind, begun};
ghost use Rattle.esx_replies.specs.Replies.{marks_head, mark_text, marks_text};

use crate::sign::Sign;
use esx_events::NameRow;
use esx_types::{Sink, SinkFailed};
use esx_writing::{AnswerBuffer, line, put_line};

/// A name and its node.
fn put_mark<W: Sink>(sink: &mut W, held: &mut AnswerBuffer, row: &NameRow) -> Result<(), SinkFailed>
    ensures named { IsName row.now.name }
    ensures bytes { Puts (W.contents sink.old) held.old (W.contents sink.new) held.new (mark_text row.now) result }
    ensures utf8 { OnOk result (IsUtf8 (mark_text row.now)) }
    ensures failures { W.failures sink.new ≡ W.failures sink.old + sink_faults result }
    ensures flushes { W.flushes sink.new ≡ W.flushes sink.old }
{
    put_line(
        sink,
        held,
        &line![row.name.as_str(), " ", u64::from(row.node), "\n"],
    )
}

/// The same behind a sign.
#[inline(always)]
fn put_mark_line<S: Sign, W: Sink>(
    sink: &mut W,
    held: &mut AnswerBuffer,
    row: &NameRow,
) -> Result<(), SinkFailed>
    ensures bytes { Puts (W.contents sink.old) held.old (W.contents sink.new) held.new (behind S.text (mark_text row.now)) result }
    ensures utf8 { OnOk result (IsUtf8 (behind S.text (mark_text row.now))) }
    ensures failures { W.failures sink.new ≡ W.failures sink.old + sink_faults result }
    ensures flushes { W.flushes sink.new ≡ W.flushes sink.old }
{
    S::put(sink, held)?;
    put_mark(sink, held, row)
}

/// Names and their nodes.
fn put_mark_rows<S: Sign, W: Sink>(
    sink: &mut W,
    held: &mut AnswerBuffer,
    rows: &[NameRow],
) -> Result<(), SinkFailed>
    ensures bytes { Puts (W.contents sink.old) held.old (W.contents sink.new) held.new (behind S.text (flat_map mark_text rows.now)) result }
    ensures utf8 { OnOk result (IsUtf8 (behind S.text (flat_map mark_text rows.now))) }
    ensures failures { W.failures sink.new ≡ W.failures sink.old + sink_faults result }
    ensures flushes { W.flushes sink.new ≡ W.flushes sink.old }
{
    for row in rows {
        put_mark_line::<S, W>(sink, held, row)?;
    }
    Ok(())
}

/// How many marks there are.
fn put_marks_head<W: Sink>(
    sink: &mut W,
    held: &mut AnswerBuffer,
    count: usize,
) -> Result<(), SinkFailed>
    ensures bytes { Puts (W.contents sink.old) held.old (W.contents sink.new) held.new (marks_head count) result }
    ensures utf8 { OnOk result (IsUtf8 (marks_head count)) }
    ensures failures { W.failures sink.new ≡ W.failures sink.old + sink_faults result }
    ensures flushes { W.flushes sink.new ≡ W.flushes sink.old }
{
    put_line(sink, held, &line!["marks ", count as u64, "\n"])
}

/// The marks in the order in which they were made. The first sign has been put.
pub fn put_marks<S: Sign, W: Sink>(
    sink: &mut W,
    held: &mut AnswerBuffer,
    rows: &[NameRow],
) -> Result<(), SinkFailed>
    ensures bytes { Puts (W.contents sink.old) held.old (W.contents sink.new) held.new (begun S.text (marks_text rows.now)) result }
    ensures utf8 { OnOk result (IsUtf8 (begun S.text (marks_text rows.now))) }
    ensures failures { W.failures sink.new ≡ W.failures sink.old + sink_faults result }
    ensures flushes { W.flushes sink.new ≡ W.flushes sink.old }
{
    put_marks_head(sink, held, rows.len())?;
    put_mark_rows::<S, W>(sink, held, rows)
}
