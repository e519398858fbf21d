//! The table of virtual machines.

ghost use Rattle.std.specs.Prelude.{◌≡◌, ◌+◌, ◌++◌, OnOk, IsUtf8, flat_map};
ghost use Rattle.esx_writing.specs.Writing.{Puts, sink_faults};
ghost use Rattle.esx_replies.specs.Signs.{behind, begun};
ghost use Rattle.esx_replies.specs.Texts.{sum_text};
ghost use Rattle.esx_replies.specs.Replies.{table_head, row_text, table_text};

use crate::names::state_name;
use crate::questions::put_sum;
use crate::sign::Sign;
use esx_events::{Sum, TableRow};
use esx_types::{Sink, SinkFailed};
use esx_writing::{AnswerBuffer, Piece, put_line, put_pieces};

/// The line of a virtual machine.
fn put_row<W: Sink>(sink: &mut W, held: &mut AnswerBuffer, row: &TableRow) -> Result<(), SinkFailed>
    ensures bytes { Puts (W.contents sink.old) held.old (W.contents sink.new) held.new (row_text row.now) result }
    ensures utf8 { OnOk result (IsUtf8 (row_text row.now)) }
    ensures failures { W.failures sink.new ≡ W.failures sink.old + sink_faults result }
    ensures flushes { W.flushes sink.new ≡ W.flushes sink.old }
{
    put_pieces(
        sink,
        held,
        &[
            Piece::Narrow(u64::from(row.vm.number())),
            Piece::Text(" "),
            Piece::State(state_name(row.state)),
            Piece::Column(u64::from(row.min)),
            Piece::Column(u64::from(row.max)),
            Piece::Column(u64::from(row.target)),
            Piece::Column(u64::from(row.here)),
            Piece::Column(u64::from(row.lent)),
            Piece::Column(u64::from(row.out)),
            Piece::Column(u64::from(row.shares)),
            Piece::Column(u64::from(row.active)),
            Piece::Text("\n"),
        ],
    )
}

/// The same behind a sign.
#[inline(always)]
fn put_row_line<S: Sign, W: Sink>(
    sink: &mut W,
    held: &mut AnswerBuffer,
    row: &TableRow,
) -> Result<(), SinkFailed>
    ensures bytes { Puts (W.contents sink.old) held.old (W.contents sink.new) held.new (behind S.text (row_text row.now)) result }
    ensures utf8 { OnOk result (IsUtf8 (behind S.text (row_text row.now))) }
    ensures failures { W.failures sink.new ≡ W.failures sink.old + sink_faults result }
    ensures flushes { W.flushes sink.new ≡ W.flushes sink.old }
{
    S::put(sink, held)?;
    put_row(sink, held, row)
}

/// The lines of virtual machines.
fn put_rows<S: Sign, W: Sink>(
    sink: &mut W,
    held: &mut AnswerBuffer,
    rows: &[TableRow],
) -> Result<(), SinkFailed>
    ensures bytes { Puts (W.contents sink.old) held.old (W.contents sink.new) held.new (behind S.text (flat_map row_text rows.now)) result }
    ensures utf8 { OnOk result (IsUtf8 (behind S.text (flat_map row_text rows.now))) }
    ensures failures { W.failures sink.new ≡ W.failures sink.old + sink_faults result }
    ensures flushes { W.flushes sink.new ≡ W.flushes sink.old }
{
    for row in rows {
        put_row_line::<S, W>(sink, held, row)?;
    }
    Ok(())
}

/// The head of the table.
fn put_head<W: Sink>(sink: &mut W, held: &mut AnswerBuffer) -> Result<(), SinkFailed>
    ensures bytes { Puts (W.contents sink.old) held.old (W.contents sink.new) held.new (table_head) result }
    ensures utf8 { OnOk result (IsUtf8 (table_head)) }
    ensures failures { W.failures sink.new ≡ W.failures sink.old + sink_faults result }
    ensures flushes { W.flushes sink.new ≡ W.flushes sink.old }
{
    put_line(
        sink,
        held,
        &" vm state        min     max  target    here    lent     out  shares  active\n",
    )
}

/// The sum behind a sign.
#[inline(always)]
fn put_sum_line<S: Sign, W: Sink>(
    sink: &mut W,
    held: &mut AnswerBuffer,
    sum: Sum,
) -> Result<(), SinkFailed>
    ensures bytes { Puts (W.contents sink.old) held.old (W.contents sink.new) held.new (behind S.text (sum_text sum)) result }
    ensures utf8 { OnOk result (IsUtf8 (behind S.text (sum_text sum))) }
    ensures failures { W.failures sink.new ≡ W.failures sink.old + sink_faults result }
    ensures flushes { W.flushes sink.new ≡ W.flushes sink.old }
{
    S::put(sink, held)?;
    put_sum(sink, held, sum)
}

/// The lines behind the head.
fn put_rows_and_sum<S: Sign, W: Sink>(
    sink: &mut W,
    held: &mut AnswerBuffer,
    rows: &[TableRow],
    sum: Sum,
) -> Result<(), SinkFailed>
    ensures bytes { Puts (W.contents sink.old) held.old (W.contents sink.new) held.new (behind S.text (flat_map row_text rows.now ++ sum_text sum)) result }
    ensures utf8 { OnOk result (IsUtf8 (behind S.text (flat_map row_text rows.now ++ sum_text sum))) }
    ensures failures { W.failures sink.new ≡ W.failures sink.old + sink_faults result }
    ensures flushes { W.flushes sink.new ≡ W.flushes sink.old }
{
    put_rows::<S, W>(sink, held, rows)?;
    put_sum_line::<S, W>(sink, held, sum)
}

/// The head, a line for each virtual machine, and the sum. The first sign has been put.
pub fn put_table<S: Sign, W: Sink>(
    sink: &mut W,
    held: &mut AnswerBuffer,
    rows: &[TableRow],
    sum: Sum,
) -> Result<(), SinkFailed>
    ensures bytes { Puts (W.contents sink.old) held.old (W.contents sink.new) held.new (begun S.text (table_text rows.now sum)) result }
    ensures utf8 { OnOk result (IsUtf8 (begun S.text (table_text rows.now sum))) }
    ensures failures { W.failures sink.new ≡ W.failures sink.old + sink_faults result }
    ensures flushes { W.flushes sink.new ≡ W.flushes sink.old }
{
    put_head(sink, held)?;
    put_rows_and_sum::<S, W>(sink, held, rows, sum)
}
