//! The table of losses, as comma-separated values.

ghost use Rattle.std.specs.Prelude.{◌≡◌, ◌+◌};
ghost use Rattle.std.specs.Option.{ForSome};
ghost use Rattle.esx_formulas.specs.Ratio.{IsRow};
ghost use Rattle.esx_story.specs.Order.{HasGoodRows};
ghost use Rattle.esx_writing.specs.Writing.{Puts, sink_faults};
ghost use Rattle.esx_report.specs.Losses.{ratio, number_field, how_field, row_fields, asked_fields, set_number, later, loss_head, loss_fields, loss_row};

use crate::field::Field;
use crate::row::put_row;
use esx_formulas::Row;
use esx_formulas::activity::WHOLE;
use esx_formulas::ratio::{price, weight};
use esx_story::{Asked, How, Loss};
use esx_types::{Sink, SinkFailed};
use esx_writing::{AnswerBuffer, put_line};

/// A loss, and what is known of its call.
///
/// `node` is what its event made, `call` the number of the call and `by` its caller.
#[derive(Clone, Copy)]
pub struct LossLine {
    pub node: u32,
    pub call: u32,
    pub by: u16,
    pub loss: Loss,
}

/// What a machine had.
#[derive(Clone, Copy)]
pub struct RowFields {
    pub vm: Field,
    pub pages: Field,
    pub target: Field,
    pub shares: Field,
    pub active: Field,
    pub tax: Field,
    pub ratio: Field,
}

/// What a rebalance asked for.
#[derive(Clone, Copy)]
pub struct AskedFields {
    pub need: Field,
    pub revoked: Field,
    pub given: Field,
}

/// The taxed ratio of a machine, in shares a page. Nothing where it has no page.
pub fn ratio(row: &Row) -> Field
    requires { IsRow row.now }
    ensures { result ≡ ratio row.now }
{
    Field::Fraction {
        over: u64::from(WHOLE) * u64::from(weight(row)),
        under: u64::from(row.pages) * price(row),
    }
}

pub fn number_field(number: Option<u32>) -> Field
    ensures { result ≡ number_field number }
{
    match number {
        None => Field::Empty,
        Some(number) => Field::Number(number as u64),
    }
}

pub fn how_field(how: Option<How>) -> Field
    ensures { result ≡ how_field how }
{
    match how {
        None => Field::Empty,
        Some(how) => Field::How(how),
    }
}

pub fn row_fields(row: &Option<Row>) -> RowFields
    requires { ForSome row.now IsRow }
    ensures { result ≡ row_fields row.now }
{
    match row {
        None => RowFields {
            vm: Field::Empty,
            pages: Field::Empty,
            target: Field::Empty,
            shares: Field::Empty,
            active: Field::Empty,
            tax: Field::Empty,
            ratio: Field::Empty,
        },
        Some(row) => RowFields {
            vm: Field::Number(row.vm.number() as u64),
            pages: Field::Number(row.pages as u64),
            target: Field::Number(row.floor as u64),
            shares: Field::Number(row.shares as u64),
            active: Field::Number(row.active as u64),
            tax: Field::Number(row.tau as u64),
            ratio: ratio(row),
        },
    }
}

pub fn asked_fields(asked: &Option<Asked>) -> AskedFields
    ensures { result ≡ asked_fields asked.now }
{
    match asked {
        None => AskedFields {
            need: Field::Empty,
            revoked: Field::Empty,
            given: Field::Empty,
        },
        Some(asked) => AskedFields {
            need: Field::Number(asked.need as u64),
            revoked: Field::Number(asked.revoked as u64),
            given: Field::Number(asked.given as u64),
        },
    }
}

pub fn set_number(set: Option<u32>) -> u64
    ensures { result ≡ set_number set }
{
    match set {
        None => 0,
        Some(event) => event as u64,
    }
}

/// How many events later the page came back.
pub fn later(line: &LossLine) -> Option<u32>
    ensures { result ≡ later line.now }
{
    match line.loss.back {
        None => None,
        Some(event) => Some(event.saturating_sub(line.loss.at)),
    }
}

fn loss_fields(line: &LossLine) -> [Field; 29]
    requires { HasGoodRows line.now.loss.seen.order }
    ensures { result ≡ loss_fields line.now }
{
    let loss = &line.loss;
    let own = row_fields(&loss.seen.order.own);
    let next = row_fields(&loss.seen.order.next);
    let asked = asked_fields(&loss.asked);
    [
        Field::Number(loss.at as u64),
        Field::Number(line.node as u64),
        Field::Number(line.call as u64),
        Field::Number(line.by as u64),
        Field::Number(loss.change.vm.number() as u64),
        Field::Number(loss.life as u64),
        Field::Number(loss.change.page as u64),
        Field::How(loss.change.how),
        Field::Level(loss.seen.level),
        Field::Number(loss.seen.free as u64),
        own.pages,
        own.target,
        Field::Number(set_number(loss.set)),
        asked.need,
        asked.revoked,
        asked.given,
        own.shares,
        own.active,
        own.tax,
        own.ratio,
        Field::Number(loss.seen.order.above as u64),
        number_field(loss.seen.order.rank),
        next.vm,
        next.ratio,
        number_field(loss.slot),
        number_field(loss.back),
        how_field(loss.came),
        number_field(later(line)),
        Field::Number(loss.waits as u64),
    ]
}

/// The head of the table.
pub fn put_loss_head<W: Sink>(sink: &mut W, held: &mut AnswerBuffer) -> Result<(), SinkFailed>
    ensures bytes { Puts (W.contents sink.old) held.old (W.contents sink.new) held.new loss_head result }
    ensures failures { W.failures sink.new ≡ W.failures sink.old + sink_faults result }
    ensures flushes { W.flushes sink.new ≡ W.flushes sink.old }
{
    put_line(
        sink,
        held,
        &"event,node,call,by,vm,life,page,how,level,free,here,target,set,need,revoked,from_vm,shares,active,tax,ratio,above,rank,next,next_ratio,slot,back,as,after,waits\n",
    )
}

/// The row of a loss.
///
/// condition: the numbers of the rows in its order are in their ranges, as those of a walk's losses are
pub fn put_loss<W: Sink>(
    sink: &mut W,
    held: &mut AnswerBuffer,
    line: &LossLine,
) -> Result<(), SinkFailed>
    requires { HasGoodRows line.now.loss.seen.order }
    ensures bytes { Puts (W.contents sink.old) held.old (W.contents sink.new) held.new (loss_row line.now) result }
    ensures failures { W.failures sink.new ≡ W.failures sink.old + sink_faults result }
    ensures flushes { W.flushes sink.new ≡ W.flushes sink.old }
{
    put_row(sink, held, &loss_fields(line))
}
