//! The tables of guests: one row for each life of each machine.

ghost use Rattle.std.specs.Prelude.{◌≡◌, ◌+◌};
ghost use Rattle.esx_writing.specs.Writing.{Puts, sink_faults};
ghost use Rattle.esx_report.specs.Guests.{guest_head, guest_fields, guest_row, guest_heading, guest_cells, guest_line};

use crate::column::Cell;
use crate::field::Field;
use crate::losses::number_field;
use crate::row::put_row;
use esx_story::Counts;
use esx_sums::Guest;
use esx_types::{Sink, SinkFailed};
use esx_writing::{AnswerBuffer, put_line};

fn guest_fields(guest: &Guest) -> [Field; 27]
    ensures { result ≡ guest_fields guest.now }
{
    [
        Field::Number(guest.vm.number() as u64),
        Field::Number(guest.life as u64),
        Field::Number(guest.reads as u64),
        Field::Number(guest.writes as u64),
        Field::Number(guest.counts.first as u64),
        Field::Number(guest.counts.popped as u64),
        Field::Number(guest.counts.swapped_in as u64),
        Field::Number(guest.counts.balloon as u64),
        Field::Number(guest.counts.swapped_out as u64),
        Field::Number(guest.counts.replaced as u64),
        Field::Number(guest.counts.dropped as u64),
        Field::Number(guest.share as u64),
        Field::Number(guest.host as u64),
        Field::Number(guest.cow as u64),
        Field::Number(guest.own as u64),
        Field::Number(guest.back as u64),
        Field::Number(guest.soon as u64),
        Field::Number(guest.waits),
        Field::Number(guest.held as u64),
        Field::Number(guest.short as u64),
        Field::Number(guest.above as u64),
        Field::Number(guest.below as u64),
        Field::Number(guest.events as u64),
        Field::Number(guest.sum_here),
        Field::Number(guest.most as u64),
        Field::Number(guest.here as u64),
        number_field(guest.target),
    ]
}

/// How many pages were lost.
fn lost(counts: &Counts) -> u64
    ensures { result ≡ counts.now.balloon + counts.now.swapped_out + counts.now.replaced + counts.now.dropped }
{
    counts.balloon as u64
        + counts.swapped_out as u64
        + counts.replaced as u64
        + counts.dropped as u64
}

fn guest_cells(guest: &Guest) -> [Cell; 22]
    ensures { result ≡ guest_cells guest.now }
{
    [
        Cell::Right(3, Field::Number(guest.vm.number() as u64)),
        Cell::Right(4, Field::Number(guest.life as u64)),
        Cell::Right(9, Field::Number(guest.reads as u64 + guest.writes as u64)),
        Cell::Right(7, Field::Number(guest.counts.first as u64)),
        Cell::Right(7, Field::Number(guest.counts.popped as u64)),
        Cell::Right(7, Field::Number(guest.counts.swapped_in as u64)),
        Cell::Right(7, Field::Number(lost(&guest.counts))),
        Cell::Right(7, Field::Number(guest.counts.balloon as u64)),
        Cell::Right(7, Field::Number(guest.counts.swapped_out as u64)),
        Cell::Right(7, Field::Number(guest.counts.replaced as u64)),
        Cell::Right(7, Field::Number(guest.counts.dropped as u64)),
        Cell::Right(7, Field::Number(guest.back as u64)),
        Cell::Right(6, Field::Number(guest.soon as u64)),
        Cell::Right(6, Field::Number(guest.waits)),
        Cell::Right(7, Field::Number(guest.share as u64)),
        Cell::Right(6, Field::Number(guest.cow as u64)),
        Cell::Right(6, Field::Number(guest.held as u64)),
        Cell::Right(6, Field::Number(guest.short as u64)),
        Cell::Right(
            6,
            Field::Percent {
                part: guest.above,
                whole: guest.events,
            },
        ),
        Cell::Right(6, Field::Number(guest.most as u64)),
        Cell::Right(6, Field::Number(guest.here as u64)),
        Cell::Right(6, number_field(guest.target)),
    ]
}

/// The head of the table of comma-separated values.
pub fn put_guest_head<W: Sink>(sink: &mut W, held: &mut AnswerBuffer) -> Result<(), SinkFailed>
    ensures bytes { Puts (W.contents sink.old) held.old (W.contents sink.new) held.new guest_head result }
    ensures failures { W.failures sink.new ≡ W.failures sink.old + sink_faults result }
    ensures flushes { W.flushes sink.new ≡ W.flushes sink.old }
{
    put_line(
        sink,
        held,
        &"vm,life,reads,writes,first,pop,swapin,balloon,swap,replace,drop,share,host,cow,own,back,soon,waits,held,short,above,below,events,sum_here,most,here,target\n",
    )
}

/// The row of a guest, as comma-separated values.
pub fn put_guest<W: Sink>(
    sink: &mut W,
    held: &mut AnswerBuffer,
    guest: &Guest,
) -> Result<(), SinkFailed>
    ensures bytes { Puts (W.contents sink.old) held.old (W.contents sink.new) held.new (guest_row guest.now) result }
    ensures failures { W.failures sink.new ≡ W.failures sink.old + sink_faults result }
    ensures flushes { W.flushes sink.new ≡ W.flushes sink.old }
{
    put_row(sink, held, &guest_fields(guest))
}

/// The heading of the table in columns.
pub fn put_guest_heading<W: Sink>(sink: &mut W, held: &mut AnswerBuffer) -> Result<(), SinkFailed>
    ensures bytes { Puts (W.contents sink.old) held.old (W.contents sink.new) held.new guest_heading result }
    ensures failures { W.failures sink.new ≡ W.failures sink.old + sink_faults result }
    ensures flushes { W.flushes sink.new ≡ W.flushes sink.old }
{
    put_line(
        sink,
        held,
        &" vm life  accesses   first  popped  swapin    lost balloon    swap replace    drop    back   soon  waits  shared    cow   held  short  above   most   here target\n",
    )
}

/// The row of a guest in columns.
pub fn put_guest_line<W: Sink>(
    sink: &mut W,
    held: &mut AnswerBuffer,
    guest: &Guest,
) -> Result<(), SinkFailed>
    ensures bytes { Puts (W.contents sink.old) held.old (W.contents sink.new) held.new (guest_line guest.now) result }
    ensures failures { W.failures sink.new ≡ W.failures sink.old + sink_faults result }
    ensures flushes { W.flushes sink.new ≡ W.flushes sink.old }
{
    put_row(sink, held, &guest_cells(guest))
}
