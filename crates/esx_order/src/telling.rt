//! How the order is told.

ghost use Rattle.std.specs.Prelude.{◌≡◌, ◌+◌, [], OnOk, IsUtf8, flat_map};
ghost use Rattle.std.specs.List.{All};
ghost use Rattle.esx_writing.specs.Writing.{Puts, Writes, sink_faults};
ghost use Rattle.esx_order.specs.Order.{IsAbove};
ghost use Rattle.esx_order.specs.Telling.{own_text, above_text, order_head, order_text};

use crate::above::Above;
use crate::ratio::thousandths;
use esx_types::{Sink, SinkFailed};
use esx_writing::{AnswerBuffer, line, put_line, write_held};

/// What stands behind a tax.
fn own_text(own: bool) -> &'static str
    ensures { result.now ≡ own_text own }
{
    if own { " own" } else { "" }
}

/// The line of a machine.
fn put_above<W: Sink>(
    sink: &mut W,
    held: &mut AnswerBuffer,
    above: &Above,
) -> Result<(), SinkFailed>
    requires { IsAbove above.now }
    ensures bytes { Puts (W.contents sink.old) held.old (W.contents sink.new) held.new (above_text above.now) result }
    ensures failures { W.failures sink.new ≡ W.failures sink.old + sink_faults result }
    ensures flushes { W.flushes sink.new ≡ W.flushes sink.old }
{
    let row = &above.row;
    let ratio = thousandths(above);
    put_line(
        sink,
        held,
        &line![
            u64::from(row.vm.number()),
            " here ",
            u64::from(row.pages),
            " target ",
            u64::from(row.floor),
            " active ",
            u64::from(row.active),
            " tax ",
            u64::from(row.tau),
            own_text(above.own),
            " ratio ",
            line![
                ratio / 1000,
                ".",
                ratio / 100 % 10,
                ratio / 10 % 10,
                ratio % 10
            ],
            "\n"
        ],
    )
}

/// The lines of machines.
fn put_all_above<W: Sink>(
    sink: &mut W,
    held: &mut AnswerBuffer,
    order: &[Above],
) -> Result<(), SinkFailed>
    requires { All IsAbove order.now }
    ensures bytes { Puts (W.contents sink.old) held.old (W.contents sink.new) held.new (flat_map above_text order.now) result }
    ensures failures { W.failures sink.new ≡ W.failures sink.old + sink_faults result }
    ensures flushes { W.flushes sink.new ≡ W.flushes sink.old }
{
    for above in order {
        put_above(sink, held, above)?;
    }
    Ok(())
}

/// How many machines there are.
fn put_order_head<W: Sink>(
    sink: &mut W,
    held: &mut AnswerBuffer,
    count: usize,
) -> Result<(), SinkFailed>
    ensures bytes { Puts (W.contents sink.old) held.old (W.contents sink.new) held.new (order_head count) result }
    ensures failures { W.failures sink.new ≡ W.failures sink.old + sink_faults result }
    ensures flushes { W.flushes sink.new ≡ W.flushes sink.old }
{
    put_line(sink, held, &line!["order ", count as u64, "\n"])
}

/// How many machines there are, and their lines.
fn put_order<W: Sink>(
    sink: &mut W,
    held: &mut AnswerBuffer,
    order: &[Above],
) -> Result<(), SinkFailed>
    requires { All IsAbove order.now }
    ensures bytes { Puts (W.contents sink.old) held.old (W.contents sink.new) held.new (order_text order.now) result }
    ensures failures { W.failures sink.new ≡ W.failures sink.old + sink_faults result }
    ensures flushes { W.flushes sink.new ≡ W.flushes sink.old }
{
    put_order_head(sink, held, order.len())?;
    put_all_above(sink, held, order)
}

/// Writes how many machines there are, and a line for each, over an empty buffer. No memory is taken.
pub fn write_order<W: Sink>(
    sink: &mut W,
    held: &mut AnswerBuffer,
    order: &[Above],
) -> Result<(), SinkFailed>
    requires all { All IsAbove order.now }
    requires empty { held.old ≡ [] }
    ensures bytes { Writes (W.contents sink.old) (W.contents sink.new) (order_text order.now) result }
    ensures empty { held.new ≡ [] }
    ensures failures { W.failures sink.new ≡ W.failures sink.old + sink_faults result }
    ensures flushes { W.flushes sink.new ≡ W.flushes sink.old }
{
    put_order(sink, held, order)?;
    write_held(sink, held)
}
