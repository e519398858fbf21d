//! The sentences on memory, on the guest and on its ratio.

ghost use Rattle.std.specs.Prelude.{◌≡◌, ◌+◌};
ghost use Rattle.std.specs.Option.{ForSome};
ghost use Rattle.esx_formulas.specs.Ratio.{IsRow};
ghost use Rattle.esx_story.specs.Order.{HasGoodRows};
ghost use Rattle.esx_writing.specs.Writing.{Puts, sink_faults};
ghost use Rattle.esx_report.specs.Why.{memory_text, target_head, since_text, target_line, rate_head, rate_line, guest_lines, grounds, reason};

use crate::field::Field;
use crate::loss_table::active_percent;
use crate::losses::{LossLine, row_fields};
use crate::order::put_order;
use crate::part::{Part, put_parts};
use crate::why::Why;
use crate::words::{is_drop, tax_name, wanted_name};
use esx_formulas::Row;
use esx_story::Asked;
use esx_types::{Sink, SinkFailed};
use esx_writing::{AnswerBuffer, put_line};

/// The sentence on memory.
fn put_memory<W: Sink>(sink: &mut W, held: &mut AnswerBuffer, why: &Why) -> Result<(), SinkFailed>
    ensures bytes { Puts (W.contents sink.old) held.old (W.contents sink.new) held.new (memory_text why.now) result }
    ensures failures { W.failures sink.new ≡ W.failures sink.old + sink_faults result }
    ensures flushes { W.flushes sink.new ≡ W.flushes sink.old }
{
    let loss = &why.line.loss;
    put_parts(
        sink,
        held,
        &[
            Part::Text("  Memory: level "),
            Part::Shown(Field::Level(loss.seen.level)),
            Part::Text(", "),
            Part::Shown(Field::Number(loss.seen.free as u64)),
            Part::Text(" of "),
            Part::Shown(Field::Number(why.frames as u64)),
            Part::Text(" frames free (level high returns at "),
            Part::Shown(Field::Number(why.returns_at)),
            Part::Text(").\n"),
        ],
    )
}

/// What the guest had.
fn put_target_head<W: Sink>(
    sink: &mut W,
    held: &mut AnswerBuffer,
    own: &Option<Row>,
) -> Result<(), SinkFailed>
    requires { ForSome own.now IsRow }
    ensures bytes { Puts (W.contents sink.old) held.old (W.contents sink.new) held.new (target_head own.now) result }
    ensures failures { W.failures sink.new ≡ W.failures sink.old + sink_faults result }
    ensures flushes { W.flushes sink.new ≡ W.flushes sink.old }
{
    let own = row_fields(own);
    put_parts(
        sink,
        held,
        &[
            Part::Text("  The guest: "),
            Part::Shown(own.pages),
            Part::Text(" pages in frames, target "),
            Part::Shown(own.target),
            Part::Text(" "),
        ],
    )
}

/// What the rebalance of an event asked for.
fn put_asked<W: Sink>(
    sink: &mut W,
    held: &mut AnswerBuffer,
    event: u32,
    asked: &Asked,
) -> Result<(), SinkFailed>
    ensures bytes { Puts (W.contents sink.old) held.old (W.contents sink.new) held.new (since_text (Some event) (Some asked.now)) result }
    ensures failures { W.failures sink.new ≡ W.failures sink.old + sink_faults result }
    ensures flushes { W.flushes sink.new ≡ W.flushes sink.old }
{
    put_parts(
        sink,
        held,
        &[
            Part::Text("since event "),
            Part::Shown(Field::Number(event as u64)),
            Part::Text(", where "),
            Part::Shown(Field::Number(asked.need as u64)),
            Part::Text(wanted_name(asked.need)),
            Part::Shown(Field::Number(asked.given as u64)),
            Part::Text(" of the "),
            Part::Shown(Field::Number(asked.revoked as u64)),
            Part::Text(" revoked came from it.\n"),
        ],
    )
}

/// What is told of the rebalance that set the target.
fn put_set<W: Sink>(
    sink: &mut W,
    held: &mut AnswerBuffer,
    event: u32,
    asked: &Option<Asked>,
) -> Result<(), SinkFailed>
    ensures bytes { Puts (W.contents sink.old) held.old (W.contents sink.new) held.new (since_text (Some event) asked.now) result }
    ensures failures { W.failures sink.new ≡ W.failures sink.old + sink_faults result }
    ensures flushes { W.flushes sink.new ≡ W.flushes sink.old }
{
    match asked {
        None => put_parts(
            sink,
            held,
            &[
                Part::Text("since event "),
                Part::Shown(Field::Number(event as u64)),
                Part::Text(", at level high.\n"),
            ],
        ),
        Some(asked) => put_asked(sink, held, event, asked),
    }
}

/// Since when the guest has its target.
fn put_since<W: Sink>(
    sink: &mut W,
    held: &mut AnswerBuffer,
    set: Option<u32>,
    asked: &Option<Asked>,
) -> Result<(), SinkFailed>
    ensures bytes { Puts (W.contents sink.old) held.old (W.contents sink.new) held.new (since_text set asked.now) result }
    ensures failures { W.failures sink.new ≡ W.failures sink.old + sink_faults result }
    ensures flushes { W.flushes sink.new ≡ W.flushes sink.old }
{
    match set {
        None => put_line(sink, held, &"since its admission.\n"),
        Some(event) => put_set(sink, held, event, asked),
    }
}

/// The sentence on the guest.
fn put_target<W: Sink>(
    sink: &mut W,
    held: &mut AnswerBuffer,
    line: &LossLine,
) -> Result<(), SinkFailed>
    requires { HasGoodRows line.now.loss.seen.order }
    ensures bytes { Puts (W.contents sink.old) held.old (W.contents sink.new) held.new (target_line line.now) result }
    ensures failures { W.failures sink.new ≡ W.failures sink.old + sink_faults result }
    ensures flushes { W.flushes sink.new ≡ W.flushes sink.old }
{
    put_target_head(sink, held, &line.loss.seen.order.own)?;
    put_since(sink, held, line.loss.set, &line.loss.asked)
}

/// The guest's ratio.
fn put_rate_head<W: Sink>(
    sink: &mut W,
    held: &mut AnswerBuffer,
    own: &Option<Row>,
    own_tax: bool,
) -> Result<(), SinkFailed>
    requires { ForSome own.now IsRow }
    ensures bytes { Puts (W.contents sink.old) held.old (W.contents sink.new) held.new (rate_head own.now own_tax) result }
    ensures failures { W.failures sink.new ≡ W.failures sink.old + sink_faults result }
    ensures flushes { W.flushes sink.new ≡ W.flushes sink.old }
{
    let fields = row_fields(own);
    put_parts(
        sink,
        held,
        &[
            Part::Text("  Its ratio was "),
            Part::Shown(fields.ratio),
            Part::Text(" shares a page ("),
            Part::Shown(fields.shares),
            Part::Text(" shares, "),
            Part::Shown(active_percent(own)),
            Part::Text(tax_name(own_tax)),
            Part::Shown(fields.tax),
            Part::Text("%)"),
        ],
    )
}

/// The sentence on the ratio.
fn put_rate<W: Sink>(
    sink: &mut W,
    held: &mut AnswerBuffer,
    line: &LossLine,
) -> Result<(), SinkFailed>
    requires { HasGoodRows line.now.loss.seen.order }
    ensures bytes { Puts (W.contents sink.old) held.old (W.contents sink.new) held.new (rate_line line.now) result }
    ensures failures { W.failures sink.new ≡ W.failures sink.old + sink_faults result }
    ensures flushes { W.flushes sink.new ≡ W.flushes sink.old }
{
    let loss = &line.loss;
    put_rate_head(sink, held, &loss.seen.order.own, loss.seen.own)?;
    put_order(sink, held, loss)
}

/// The sentences on the guest and its ratio.
fn put_guest<W: Sink>(sink: &mut W, held: &mut AnswerBuffer, why: &Why) -> Result<(), SinkFailed>
    requires { HasGoodRows why.now.line.loss.seen.order }
    ensures bytes { Puts (W.contents sink.old) held.old (W.contents sink.new) held.new (guest_lines why.now) result }
    ensures failures { W.failures sink.new ≡ W.failures sink.old + sink_faults result }
    ensures flushes { W.flushes sink.new ≡ W.flushes sink.old }
{
    put_target(sink, held, &why.line)?;
    put_rate(sink, held, &why.line)
}

/// The sentences on memory and the guest.
fn put_grounds<W: Sink>(sink: &mut W, held: &mut AnswerBuffer, why: &Why) -> Result<(), SinkFailed>
    requires { HasGoodRows why.now.line.loss.seen.order }
    ensures bytes { Puts (W.contents sink.old) held.old (W.contents sink.new) held.new (grounds why.now) result }
    ensures failures { W.failures sink.new ≡ W.failures sink.old + sink_faults result }
    ensures flushes { W.flushes sink.new ≡ W.flushes sink.old }
{
    put_memory(sink, held, why)?;
    put_guest(sink, held, why)
}

/// The sentences on the reason. What a stopping guest gives back needs none.
pub fn put_reason<W: Sink>(
    sink: &mut W,
    held: &mut AnswerBuffer,
    why: &Why,
) -> Result<(), SinkFailed>
    requires { HasGoodRows why.now.line.loss.seen.order }
    ensures bytes { Puts (W.contents sink.old) held.old (W.contents sink.new) held.new (reason why.now) result }
    ensures failures { W.failures sink.new ≡ W.failures sink.old + sink_faults result }
    ensures flushes { W.flushes sink.new ≡ W.flushes sink.old }
{
    if is_drop(why.line.loss.change.how) {
        put_line(sink, held, &"")
    } else {
        put_grounds(sink, held, why)
    }
}
