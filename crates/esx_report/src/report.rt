//! The whole text of a report.

ghost use Rattle.std.specs.Prelude.{◌≡◌, ◌+◌};
ghost use Rattle.esx_writing.specs.Writing.{Puts, sink_faults};
ghost use Rattle.esx_report.specs.Losses.{AreGoodLines};
ghost use Rattle.esx_report.specs.Report.{report_text};

use crate::site::put_report_end;
use crate::site_text::{put_report_begin, put_site_text};
use crate::tables::{put_guests_text, put_losses_by_level, put_losses_text};
use crate::told::Told;
use esx_types::{Sink, SinkFailed};
use esx_writing::AnswerBuffer;

/// The text of a report, from its first line to its last, which says that it ends.
///
/// condition: the numbers of the rows in the order of each loss are in their ranges, as those of a walk's losses are
pub fn put_report<W: Sink>(
    sink: &mut W,
    held: &mut AnswerBuffer,
    told: &Told,
) -> Result<(), SinkFailed>
    requires { AreGoodLines told.now.losses.now }
    ensures bytes { Puts (W.contents sink.old) held.old (W.contents sink.new) held.new (report_text told.now) result }
    ensures failures { W.failures sink.new ≡ W.failures sink.old + sink_faults result }
    ensures flushes { W.flushes sink.new ≡ W.flushes sink.old }
{
    put_report_begin(sink, held, told)?;
    put_site_text(sink, held, told)?;
    put_guests_text(sink, held, told.guests)?;
    put_losses_by_level(sink, held, &told.by_level)?;
    put_losses_text(sink, held, told.losses)?;
    put_report_end(sink, held)
}
