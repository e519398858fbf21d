//! What the order of ratios had to do with a loss.

ghost use Rattle.std.specs.Prelude.{◌≡◌, ◌+◌};
ghost use Rattle.std.specs.Option.{ForSome};
ghost use Rattle.esx_formulas.specs.Ratio.{IsRow};
ghost use Rattle.esx_story.specs.Order.{HasGoodRows};
ghost use Rattle.esx_writing.specs.Writing.{Puts, sink_faults};
ghost use Rattle.esx_report.specs.Why.{next_text, first_text, place_text, other_text, rank_text, unranked_text, order_text};

use crate::field::Field;
use crate::losses::ratio;
use crate::part::{Part, put_parts};
use esx_formulas::Row;
use esx_story::{Loan, Loss, Order};
use esx_types::{Sink, SinkFailed};
use esx_writing::{AnswerBuffer, put_line};

/// The machine that comes behind the first.
fn put_next_row<W: Sink>(sink: &mut W, held: &mut AnswerBuffer, row: &Row) -> Result<(), SinkFailed>
    requires { IsRow row.now }
    ensures bytes { Puts (W.contents sink.old) held.old (W.contents sink.new) held.new (next_text (Some row.now)) result }
    ensures failures { W.failures sink.new ≡ W.failures sink.old + sink_faults result }
    ensures flushes { W.flushes sink.new ≡ W.flushes sink.old }
{
    put_parts(
        sink,
        held,
        &[
            Part::Text("; guest "),
            Part::Shown(Field::Number(row.vm.number() as u64)),
            Part::Text(" at "),
            Part::Shown(ratio(row)),
            Part::Text(" is next.\n"),
        ],
    )
}

/// Who comes behind the first.
fn put_next_guest<W: Sink>(
    sink: &mut W,
    held: &mut AnswerBuffer,
    next: &Option<Row>,
) -> Result<(), SinkFailed>
    requires { ForSome next.now IsRow }
    ensures bytes { Puts (W.contents sink.old) held.old (W.contents sink.new) held.new (next_text next.now) result }
    ensures failures { W.failures sink.new ≡ W.failures sink.old + sink_faults result }
    ensures flushes { W.flushes sink.new ≡ W.flushes sink.old }
{
    match next {
        None => put_line(sink, held, &"; no other guest is above its target.\n"),
        Some(row) => put_next_row(sink, held, row),
    }
}

/// The machine that comes before another.
fn put_first_row<W: Sink>(
    sink: &mut W,
    held: &mut AnswerBuffer,
    row: &Row,
) -> Result<(), SinkFailed>
    requires { IsRow row.now }
    ensures bytes { Puts (W.contents sink.old) held.old (W.contents sink.new) held.new (first_text (Some row.now)) result }
    ensures failures { W.failures sink.new ≡ W.failures sink.old + sink_faults result }
    ensures flushes { W.flushes sink.new ≡ W.flushes sink.old }
{
    put_parts(
        sink,
        held,
        &[
            Part::Text(", although guest "),
            Part::Shown(Field::Number(row.vm.number() as u64)),
            Part::Text(" at "),
            Part::Shown(ratio(row)),
            Part::Text(" comes first.\n"),
        ],
    )
}

/// Who comes before another.
fn put_first_guest<W: Sink>(
    sink: &mut W,
    held: &mut AnswerBuffer,
    next: &Option<Row>,
) -> Result<(), SinkFailed>
    requires { ForSome next.now IsRow }
    ensures bytes { Puts (W.contents sink.old) held.old (W.contents sink.new) held.new (first_text next.now) result }
    ensures failures { W.failures sink.new ≡ W.failures sink.old + sink_faults result }
    ensures flushes { W.flushes sink.new ≡ W.flushes sink.old }
{
    match next {
        None => put_line(sink, held, &".\n"),
        Some(row) => put_first_row(sink, held, row),
    }
}

/// A machine's place among those above their target.
fn put_place<W: Sink>(
    sink: &mut W,
    held: &mut AnswerBuffer,
    rank: u32,
    above: u32,
) -> Result<(), SinkFailed>
    ensures bytes { Puts (W.contents sink.old) held.old (W.contents sink.new) held.new (place_text rank above) result }
    ensures failures { W.failures sink.new ≡ W.failures sink.old + sink_faults result }
    ensures flushes { W.flushes sink.new ≡ W.flushes sink.old }
{
    if rank == 1 {
        put_parts(
            sink,
            held,
            &[
                Part::Text(": the least of "),
                Part::Shown(Field::Number(above as u64)),
                Part::Text(" above target"),
            ],
        )
    } else {
        put_parts(
            sink,
            held,
            &[
                Part::Text(": number "),
                Part::Shown(Field::Number(rank as u64)),
                Part::Text(" of "),
                Part::Shown(Field::Number(above as u64)),
                Part::Text(" above target"),
            ],
        )
    }
}

/// The other machine of the order.
fn put_other<W: Sink>(
    sink: &mut W,
    held: &mut AnswerBuffer,
    rank: u32,
    next: &Option<Row>,
) -> Result<(), SinkFailed>
    requires { ForSome next.now IsRow }
    ensures bytes { Puts (W.contents sink.old) held.old (W.contents sink.new) held.new (other_text rank next.now) result }
    ensures failures { W.failures sink.new ≡ W.failures sink.old + sink_faults result }
    ensures flushes { W.flushes sink.new ≡ W.flushes sink.old }
{
    if rank == 1 {
        put_next_guest(sink, held, next)
    } else {
        put_first_guest(sink, held, next)
    }
}

/// How a machine stands in the order.
fn put_rank<W: Sink>(
    sink: &mut W,
    held: &mut AnswerBuffer,
    rank: u32,
    order: &Order,
) -> Result<(), SinkFailed>
    requires { HasGoodRows order.now }
    ensures bytes { Puts (W.contents sink.old) held.old (W.contents sink.new) held.new (rank_text rank order.now) result }
    ensures failures { W.failures sink.new ≡ W.failures sink.old + sink_faults result }
    ensures flushes { W.flushes sink.new ≡ W.flushes sink.old }
{
    put_place(sink, held, rank, order.above)?;
    put_other(sink, held, rank, &order.next)
}

/// Why a page is lost of a machine that is not above its target.
fn put_unranked<W: Sink>(
    sink: &mut W,
    held: &mut AnswerBuffer,
    loan: Option<Loan>,
) -> Result<(), SinkFailed>
    ensures bytes { Puts (W.contents sink.old) held.old (W.contents sink.new) held.new (unranked_text loan) result }
    ensures failures { W.failures sink.new ≡ W.failures sink.old + sink_faults result }
    ensures flushes { W.flushes sink.new ≡ W.flushes sink.old }
{
    match loan {
        None => put_line(
            sink,
            held,
            &": no frame is free and no guest has more than its minimum, so it gives one of its own.\n",
        ),
        Some(loan) => put_parts(
            sink,
            held,
            &[
                Part::Text("; the balloon is to hold "),
                Part::Shown(Field::Number(loan.goal as u64)),
                Part::Text(" pages and held "),
                Part::Shown(Field::Number(loan.held as u64)),
                Part::Text(".\n"),
            ],
        ),
    }
}

/// What the order of ratios has to do with it.
pub fn put_order<W: Sink>(
    sink: &mut W,
    held: &mut AnswerBuffer,
    loss: &Loss,
) -> Result<(), SinkFailed>
    requires { HasGoodRows loss.now.seen.order }
    ensures bytes { Puts (W.contents sink.old) held.old (W.contents sink.new) held.new (order_text loss.now) result }
    ensures failures { W.failures sink.new ≡ W.failures sink.old + sink_faults result }
    ensures flushes { W.flushes sink.new ≡ W.flushes sink.old }
{
    match loss.seen.order.rank {
        None => put_unranked(sink, held, loss.loan),
        Some(rank) => put_rank(sink, held, rank, &loss.seen.order),
    }
}
