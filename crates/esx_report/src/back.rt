//! The sentence on what came of a loss.

ghost use Rattle.std.specs.Prelude.{◌≡◌, ◌+◌};
ghost use Rattle.esx_writing.specs.Writing.{Puts, sink_faults};
ghost use Rattle.esx_report.specs.Why.{back_head, waits_text, back_end, back_tail, back_line};

use crate::field::Field;
use crate::part::{Part, put_parts};
use crate::words::came_name;
use esx_story::Loss;
use esx_types::{Sink, SinkFailed};
use esx_writing::{AnswerBuffer, put_line};

/// Whether the page came back.
fn put_back_head<W: Sink>(
    sink: &mut W,
    held: &mut AnswerBuffer,
    loss: &Loss,
) -> Result<(), SinkFailed>
    ensures bytes { Puts (W.contents sink.old) held.old (W.contents sink.new) held.new (back_head loss.now) result }
    ensures failures { W.failures sink.new ≡ W.failures sink.old + sink_faults result }
    ensures flushes { W.flushes sink.new ≡ W.flushes sink.old }
{
    match loss.back {
        None => put_line(sink, held, &"  It did not come back on this path"),
        Some(event) => put_parts(
            sink,
            held,
            &[
                Part::Text("  It came back at event "),
                Part::Shown(Field::Number(event as u64)),
                Part::Text(" ("),
                Part::Shown(Field::Number(event.saturating_sub(loss.at) as u64)),
                Part::Text(" later"),
            ],
        ),
    }
}

/// How many accesses of the page were refused.
fn put_waits<W: Sink>(sink: &mut W, held: &mut AnswerBuffer, waits: u32) -> Result<(), SinkFailed>
    ensures bytes { Puts (W.contents sink.old) held.old (W.contents sink.new) held.new (waits_text waits) result }
    ensures failures { W.failures sink.new ≡ W.failures sink.old + sink_faults result }
    ensures flushes { W.flushes sink.new ≡ W.flushes sink.old }
{
    if waits == 0 {
        return Ok(());
    }
    if waits == 1 {
        return put_line(sink, held, &", after 1 refused access");
    }
    put_parts(
        sink,
        held,
        &[
            Part::Text(", after "),
            Part::Shown(Field::Number(waits as u64)),
            Part::Text(" refused accesses"),
        ],
    )
}

/// How the page came back.
fn put_back_end<W: Sink>(
    sink: &mut W,
    held: &mut AnswerBuffer,
    loss: &Loss,
) -> Result<(), SinkFailed>
    ensures bytes { Puts (W.contents sink.old) held.old (W.contents sink.new) held.new (back_end loss.now.back loss.now.came) result }
    ensures failures { W.failures sink.new ≡ W.failures sink.old + sink_faults result }
    ensures flushes { W.flushes sink.new ≡ W.flushes sink.old }
{
    match loss.back {
        None => put_line(sink, held, &".\n"),
        Some(_) => put_parts(
            sink,
            held,
            &[
                Part::Text("): "),
                Part::Text(came_name(loss.came)),
                Part::Text(".\n"),
            ],
        ),
    }
}

/// What there was until then, and how it came back.
fn put_back_tail<W: Sink>(
    sink: &mut W,
    held: &mut AnswerBuffer,
    loss: &Loss,
) -> Result<(), SinkFailed>
    ensures bytes { Puts (W.contents sink.old) held.old (W.contents sink.new) held.new (back_tail loss.now) result }
    ensures failures { W.failures sink.new ≡ W.failures sink.old + sink_faults result }
    ensures flushes { W.flushes sink.new ≡ W.flushes sink.old }
{
    put_waits(sink, held, loss.waits)?;
    put_back_end(sink, held, loss)
}

/// The sentence on what came of the loss.
pub fn put_back<W: Sink>(
    sink: &mut W,
    held: &mut AnswerBuffer,
    loss: &Loss,
) -> Result<(), SinkFailed>
    ensures bytes { Puts (W.contents sink.old) held.old (W.contents sink.new) held.new (back_line loss.now) result }
    ensures failures { W.failures sink.new ≡ W.failures sink.old + sink_faults result }
    ensures flushes { W.flushes sink.new ≡ W.flushes sink.old }
{
    put_back_head(sink, held, loss)?;
    put_back_tail(sink, held, loss)
}
