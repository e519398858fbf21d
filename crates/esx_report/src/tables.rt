//! The tables of a report, with what stands around them.

ghost use Rattle.std.specs.Prelude.{◌≡◌, ◌+◌, flat_map};
ghost use Rattle.esx_writing.specs.Writing.{Puts, sink_faults};
ghost use Rattle.esx_report.specs.Guests.{guest_line};
ghost use Rattle.esx_report.specs.Losses.{AreGoodLines};
ghost use Rattle.esx_report.specs.LossTable.{loss_line};
ghost use Rattle.esx_report.specs.Report.{guests_text, losses_by_level, losses_text};

use crate::guests::{put_guest_heading, put_guest_line};
use crate::loss_table::{put_loss_heading, put_loss_line};
use crate::losses::LossLine;
use crate::site::{
    put_guests_note, put_guests_title, put_level_losses, put_level_losses_heading,
    put_losses_heading,
};
use crate::told::LossesByLevel;
use esx_sums::Guest;
use esx_types::{Sink, SinkFailed};
use esx_writing::AnswerBuffer;

/// The rows of guests in columns.
fn put_guest_lines<W: Sink>(
    sink: &mut W,
    held: &mut AnswerBuffer,
    guests: &[Guest],
) -> Result<(), SinkFailed>
    ensures bytes { Puts (W.contents sink.old) held.old (W.contents sink.new) held.new (flat_map guest_line guests.now) result }
    ensures failures { W.failures sink.new ≡ W.failures sink.old + sink_faults result }
    ensures flushes { W.flushes sink.new ≡ W.flushes sink.old }
{
    for guest in guests {
        put_guest_line(sink, held, guest)?;
    }
    Ok(())
}

/// The table of guests, and how its rows add up, between empty lines.
pub(crate) fn put_guests_text<W: Sink>(
    sink: &mut W,
    held: &mut AnswerBuffer,
    guests: &[Guest],
) -> Result<(), SinkFailed>
    ensures bytes { Puts (W.contents sink.old) held.old (W.contents sink.new) held.new (guests_text guests.now) result }
    ensures failures { W.failures sink.new ≡ W.failures sink.old + sink_faults result }
    ensures flushes { W.flushes sink.new ≡ W.flushes sink.old }
{
    put_guests_title(sink, held)?;
    put_guest_heading(sink, held)?;
    put_guest_lines(sink, held, guests)?;
    put_guests_note(sink, held)
}

/// The table of losses by level and mechanism.
pub(crate) fn put_losses_by_level<W: Sink>(
    sink: &mut W,
    held: &mut AnswerBuffer,
    losses: &LossesByLevel,
) -> Result<(), SinkFailed>
    ensures bytes { Puts (W.contents sink.old) held.old (W.contents sink.new) held.new (losses_by_level losses.now) result }
    ensures failures { W.failures sink.new ≡ W.failures sink.old + sink_faults result }
    ensures flushes { W.flushes sink.new ≡ W.flushes sink.old }
{
    put_level_losses_heading(sink, held)?;
    put_level_losses(sink, held, &losses.high)?;
    put_level_losses(sink, held, &losses.soft)?;
    put_level_losses(sink, held, &losses.hard)?;
    put_level_losses(sink, held, &losses.low)
}

/// The rows of losses in columns.
fn put_loss_lines<W: Sink>(
    sink: &mut W,
    held: &mut AnswerBuffer,
    lines: &[LossLine],
) -> Result<(), SinkFailed>
    requires { AreGoodLines lines.now }
    ensures bytes { Puts (W.contents sink.old) held.old (W.contents sink.new) held.new (flat_map loss_line lines.now) result }
    ensures failures { W.failures sink.new ≡ W.failures sink.old + sink_faults result }
    ensures flushes { W.flushes sink.new ≡ W.flushes sink.old }
{
    for line in lines {
        put_loss_line(sink, held, line)?;
    }
    Ok(())
}

/// The table of losses, behind an empty line and how many there are.
pub(crate) fn put_losses_text<W: Sink>(
    sink: &mut W,
    held: &mut AnswerBuffer,
    lines: &[LossLine],
) -> Result<(), SinkFailed>
    requires { AreGoodLines lines.now }
    ensures bytes { Puts (W.contents sink.old) held.old (W.contents sink.new) held.new (losses_text lines.now) result }
    ensures failures { W.failures sink.new ≡ W.failures sink.old + sink_faults result }
    ensures flushes { W.flushes sink.new ≡ W.flushes sink.old }
{
    put_losses_heading(sink, held, lines.len() as u64)?;
    put_loss_heading(sink, held)?;
    put_loss_lines(sink, held, lines)
}
