//! Why a page was lost, in sentences.

ghost use Rattle.std.specs.Prelude.{◌≡◌, ◌+◌, flat_map};
ghost use Rattle.esx_story.specs.Order.{HasGoodRows};
ghost use Rattle.esx_writing.specs.Writing.{Puts, sink_faults};
ghost use Rattle.esx_report.specs.Why.{why_rest, why_text, why_head, why_all, AreGoodWhys};

use crate::back::put_back;
use crate::field::Field;
use crate::grounds::put_reason;
use crate::happened::put_happened;
use crate::losses::LossLine;
use crate::part::{Part, put_parts};
use esx_types::{Sink, SinkFailed};
use esx_writing::AnswerBuffer;

/// A loss and what tells its reason.
///
/// `command` is its call as it was spelt, of which at most 40 bytes are told; `frames` how many frames the site has, and
/// `returns_at` how many of them are free when level high returns.
#[derive(Drop)]
pub struct Why {
    pub line: LossLine,
    pub command: String,
    pub frames: u32,
    pub returns_at: u64,
}

/// The sentences behind the first.
fn put_rest<W: Sink>(sink: &mut W, held: &mut AnswerBuffer, why: &Why) -> Result<(), SinkFailed>
    requires { HasGoodRows why.now.line.loss.seen.order }
    ensures bytes { Puts (W.contents sink.old) held.old (W.contents sink.new) held.new (why_rest why.now) result }
    ensures failures { W.failures sink.new ≡ W.failures sink.old + sink_faults result }
    ensures flushes { W.flushes sink.new ≡ W.flushes sink.old }
{
    put_reason(sink, held, why)?;
    put_back(sink, held, &why.line.loss)
}

/// Why a page was lost.
///
/// condition: the numbers of the rows in the order of its loss are in their ranges, as those of a walk's losses are
pub fn put_why<W: Sink>(sink: &mut W, held: &mut AnswerBuffer, why: &Why) -> Result<(), SinkFailed>
    requires { HasGoodRows why.now.line.loss.seen.order }
    ensures bytes { Puts (W.contents sink.old) held.old (W.contents sink.new) held.new (why_text why.now) result }
    ensures failures { W.failures sink.new ≡ W.failures sink.old + sink_faults result }
    ensures flushes { W.flushes sink.new ≡ W.flushes sink.old }
{
    put_happened(sink, held, why)?;
    put_rest(sink, held, why)
}

/// The lines before all reasons.
pub fn put_why_head<W: Sink>(
    sink: &mut W,
    held: &mut AnswerBuffer,
    count: u64,
) -> Result<(), SinkFailed>
    ensures bytes { Puts (W.contents sink.old) held.old (W.contents sink.new) held.new (why_head count) result }
    ensures failures { W.failures sink.new ≡ W.failures sink.old + sink_faults result }
    ensures flushes { W.flushes sink.new ≡ W.flushes sink.old }
{
    put_parts(
        sink,
        held,
        &[
            Part::Text("esx why 1\nlosses "),
            Part::Shown(Field::Number(count)),
            Part::Text("\n"),
        ],
    )
}

fn put_each<W: Sink>(sink: &mut W, held: &mut AnswerBuffer, whys: &[Why]) -> Result<(), SinkFailed>
    requires { AreGoodWhys whys.now }
    ensures bytes { Puts (W.contents sink.old) held.old (W.contents sink.new) held.new (flat_map why_text whys.now) result }
    ensures failures { W.failures sink.new ≡ W.failures sink.old + sink_faults result }
    ensures flushes { W.flushes sink.new ≡ W.flushes sink.old }
{
    for why in whys {
        put_why(sink, held, why)?;
    }
    Ok(())
}

/// Why pages were lost, behind how many they are.
///
/// condition: as for `put_why`, of each
pub fn put_whys<W: Sink>(
    sink: &mut W,
    held: &mut AnswerBuffer,
    whys: &[Why],
) -> Result<(), SinkFailed>
    requires { AreGoodWhys whys.now }
    ensures bytes { Puts (W.contents sink.old) held.old (W.contents sink.new) held.new (why_all whys.now) result }
    ensures failures { W.failures sink.new ≡ W.failures sink.old + sink_faults result }
    ensures flushes { W.flushes sink.new ≡ W.flushes sink.old }
{
    put_why_head(sink, held, whys.len() as u64)?;
    put_each(sink, held, whys)
}
