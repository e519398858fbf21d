//! The table of losses in columns.

ghost use Rattle.std.specs.Prelude.{◌≡◌, ◌+◌, ◌*◌, ◌/◌};
ghost use Rattle.esx_story.specs.Order.{HasGoodRows};
ghost use Rattle.esx_writing.specs.Writing.{Puts, sink_faults};
ghost use Rattle.esx_report.specs.LossTable.{active_percent, rank_field, loss_heading, loss_cells, loss_line};

use crate::column::Cell;
use crate::field::Field;
use crate::losses::{LossLine, how_field, later, number_field, row_fields, set_number};
use crate::row::put_row;
use esx_formulas::Row;
use esx_formulas::activity::WHOLE;
use esx_story::Order;
use esx_types::{Sink, SinkFailed};
use esx_writing::{AnswerBuffer, put_line};

/// The active part of a machine's memory in percent, cut off.
pub fn active_percent(own: &Option<Row>) -> Field
    ensures { result ≡ active_percent own.now }
{
    match own {
        None => Field::Empty,
        Some(row) => Field::Number(u64::from(row.active) * 100 / u64::from(WHOLE)),
    }
}

/// Where a machine stands among those above their target.
fn rank_field(order: &Order) -> Field
    ensures { result ≡ rank_field order.now.rank order.now.above }
{
    match order.rank {
        None => Field::Empty,
        Some(rank) => Field::Place {
            place: rank,
            all: order.above,
        },
    }
}

fn loss_cells(line: &LossLine) -> [Cell; 21]
    requires { HasGoodRows line.now.loss.seen.order }
    ensures { result ≡ loss_cells line.now }
{
    let loss = &line.loss;
    let own = row_fields(&loss.seen.order.own);
    let next = row_fields(&loss.seen.order.next);
    [
        Cell::Right(8, Field::Number(loss.at as u64)),
        Cell::Right(8, Field::Number(line.node as u64)),
        Cell::Right(3, Field::Number(line.by as u64)),
        Cell::Right(3, Field::Number(loss.change.vm.number() as u64)),
        Cell::Right(6, Field::Number(loss.change.page as u64)),
        Cell::Left(7, Field::How(loss.change.how)),
        Cell::Left(5, Field::Level(loss.seen.level)),
        Cell::Right(7, Field::Number(loss.seen.free as u64)),
        Cell::Right(6, own.pages),
        Cell::Right(6, own.target),
        Cell::Right(8, Field::Number(set_number(loss.set))),
        Cell::Right(7, own.shares),
        Cell::Right(4, active_percent(&loss.seen.order.own)),
        Cell::Right(10, own.ratio),
        Cell::Right(5, rank_field(&loss.seen.order)),
        Cell::Right(4, next.vm),
        Cell::Right(10, next.ratio),
        Cell::Right(8, number_field(loss.back)),
        Cell::Left(6, how_field(loss.came)),
        Cell::Right(7, number_field(later(line))),
        Cell::Right(5, Field::Number(loss.waits as u64)),
    ]
}

/// The heading of the table.
pub fn put_loss_heading<W: Sink>(sink: &mut W, held: &mut AnswerBuffer) -> Result<(), SinkFailed>
    ensures bytes { Puts (W.contents sink.old) held.old (W.contents sink.new) held.new loss_heading result }
    ensures failures { W.failures sink.new ≡ W.failures sink.old + sink_faults result }
    ensures flushes { W.flushes sink.new ≡ W.flushes sink.old }
{
    put_line(
        sink,
        held,
        &"   event     node  by  vm   page how     level    free   here target      set  shares  act      ratio  rank next     nratio     back as       after waits\n",
    )
}

/// The row of a loss in columns.
///
/// condition: the numbers of the rows in its order are in their ranges, as those of a walk's losses are
pub fn put_loss_line<W: Sink>(
    sink: &mut W,
    held: &mut AnswerBuffer,
    line: &LossLine,
) -> Result<(), SinkFailed>
    requires { HasGoodRows line.now.loss.seen.order }
    ensures bytes { Puts (W.contents sink.old) held.old (W.contents sink.new) held.new (loss_line line.now) result }
    ensures failures { W.failures sink.new ≡ W.failures sink.old + sink_faults result }
    ensures flushes { W.flushes sink.new ≡ W.flushes sink.old }
{
    put_row(sink, held, &loss_cells(line))
}
