//! The sentence on what happened.

ghost use Rattle.std.specs.Prelude.{◌≡◌, ◌+◌};
ghost use Rattle.esx_writing.specs.Writing.{Puts, sink_faults};
ghost use Rattle.esx_report.specs.Why.{happened_head, outcome_text, happened};

use crate::field::Field;
use crate::losses::LossLine;
use crate::part::{Part, put_parts};
use crate::why::Why;
use crate::words::{front, mechanism_name};
use esx_story::How;
use esx_types::{Sink, SinkFailed};
use esx_writing::AnswerBuffer;

/// The event, its call and the loss.
fn put_happened_head<W: Sink>(
    sink: &mut W,
    held: &mut AnswerBuffer,
    command: &[u8],
    line: &LossLine,
) -> Result<(), SinkFailed>
    ensures bytes { Puts (W.contents sink.old) held.old (W.contents sink.new) held.new (happened_head command.now line.now) result }
    ensures failures { W.failures sink.new ≡ W.failures sink.old + sink_faults result }
    ensures flushes { W.flushes sink.new ≡ W.flushes sink.old }
{
    put_parts(
        sink,
        held,
        &[
            Part::Text("Event "),
            Part::Shown(Field::Number(line.loss.at as u64)),
            Part::Text(" (caller "),
            Part::Shown(Field::Number(line.by as u64)),
            Part::Text(": "),
            Part::Bytes(front(command)),
            Part::Text("): guest "),
            Part::Shown(Field::Number(line.loss.change.vm.number() as u64)),
            Part::Text(" lost page "),
            Part::Shown(Field::Number(line.loss.change.page as u64)),
            Part::Text(": "),
        ],
    )
}

/// How the page went, and where.
fn put_outcome<W: Sink>(
    sink: &mut W,
    held: &mut AnswerBuffer,
    how: How,
    slot: Option<u32>,
) -> Result<(), SinkFailed>
    ensures bytes { Puts (W.contents sink.old) held.old (W.contents sink.new) held.new (outcome_text how slot) result }
    ensures failures { W.failures sink.new ≡ W.failures sink.old + sink_faults result }
    ensures flushes { W.flushes sink.new ≡ W.flushes sink.old }
{
    let mechanism = mechanism_name(how);
    match slot {
        None => put_parts(sink, held, &[Part::Text(mechanism), Part::Text(".\n")]),
        Some(slot) => put_parts(
            sink,
            held,
            &[
                Part::Text(mechanism),
                Part::Text(", to slot "),
                Part::Shown(Field::Number(slot as u64)),
                Part::Text(".\n"),
            ],
        ),
    }
}

/// The first sentence.
pub fn put_happened<W: Sink>(
    sink: &mut W,
    held: &mut AnswerBuffer,
    why: &Why,
) -> Result<(), SinkFailed>
    ensures bytes { Puts (W.contents sink.old) held.old (W.contents sink.new) held.new (happened why.now) result }
    ensures failures { W.failures sink.new ≡ W.failures sink.old + sink_faults result }
    ensures flushes { W.flushes sink.new ≡ W.flushes sink.old }
{
    put_happened_head(sink, held, why.command.as_bytes(), &why.line)?;
    put_outcome(sink, held, why.line.loss.change.how, why.line.loss.slot)
}
