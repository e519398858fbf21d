//! Whole tables of losses and of guests, as comma-separated values.

ghost use Rattle.std.specs.Prelude.{◌≡◌, ◌+◌, flat_map};
ghost use Rattle.esx_writing.specs.Writing.{Puts, sink_faults};
ghost use Rattle.esx_report.specs.Losses.{loss_row, losses_csv, AreGoodLines};
ghost use Rattle.esx_report.specs.Guests.{guest_row, guests_csv};

use crate::guests::{put_guest, put_guest_head};
use crate::losses::{LossLine, put_loss, put_loss_head};
use esx_sums::Guest;
use esx_types::{Sink, SinkFailed};
use esx_writing::AnswerBuffer;

/// The rows of losses.
fn put_loss_rows<W: Sink>(
    sink: &mut W,
    held: &mut AnswerBuffer,
    lines: &[LossLine],
) -> Result<(), SinkFailed>
    requires { AreGoodLines lines.now }
    ensures bytes { Puts (W.contents sink.old) held.old (W.contents sink.new) held.new (flat_map loss_row lines.now) result }
    ensures failures { W.failures sink.new ≡ W.failures sink.old + sink_faults result }
    ensures flushes { W.flushes sink.new ≡ W.flushes sink.old }
{
    for line in lines {
        put_loss(sink, held, line)?;
    }
    Ok(())
}

/// The table of losses: its head, and a row for each line, in their order.
///
/// condition: the numbers of the rows in the order of each loss are in their ranges, as those of a walk's losses are
pub fn put_losses<W: Sink>(
    sink: &mut W,
    held: &mut AnswerBuffer,
    lines: &[LossLine],
) -> Result<(), SinkFailed>
    requires { AreGoodLines lines.now }
    ensures bytes { Puts (W.contents sink.old) held.old (W.contents sink.new) held.new (losses_csv lines.now) result }
    ensures failures { W.failures sink.new ≡ W.failures sink.old + sink_faults result }
    ensures flushes { W.flushes sink.new ≡ W.flushes sink.old }
{
    put_loss_head(sink, held)?;
    put_loss_rows(sink, held, lines)
}

/// The rows of guests.
fn put_guest_rows<W: Sink>(
    sink: &mut W,
    held: &mut AnswerBuffer,
    guests: &[Guest],
) -> Result<(), SinkFailed>
    ensures bytes { Puts (W.contents sink.old) held.old (W.contents sink.new) held.new (flat_map guest_row guests.now) result }
    ensures failures { W.failures sink.new ≡ W.failures sink.old + sink_faults result }
    ensures flushes { W.flushes sink.new ≡ W.flushes sink.old }
{
    for guest in guests {
        put_guest(sink, held, guest)?;
    }
    Ok(())
}

/// The table of guests: its head, and a row for each of these lives, in their order.
pub fn put_guests<W: Sink>(
    sink: &mut W,
    held: &mut AnswerBuffer,
    guests: &[Guest],
) -> Result<(), SinkFailed>
    ensures bytes { Puts (W.contents sink.old) held.old (W.contents sink.new) held.new (guests_csv guests.now) result }
    ensures failures { W.failures sink.new ≡ W.failures sink.old + sink_faults result }
    ensures flushes { W.flushes sink.new ≡ W.flushes sink.old }
{
    put_guest_head(sink, held)?;
    put_guest_rows(sink, held, guests)
}
