//! What a report tells of its path and of the site.

ghost use Rattle.std.specs.Prelude.{◌≡◌, ◌+◌};
ghost use Rattle.esx_writing.specs.Writing.{Puts, sink_faults};
ghost use Rattle.esx_report.specs.Report.{report_begin, level_lines, site_lines, site_text};

use crate::site::{
    put_first_level, put_free, put_level, put_opened, put_pages, put_path, put_report_head,
    put_saved, put_site_heading, put_slots,
};
use crate::told::Told;
use esx_sums::{Levels, SiteSums};
use esx_types::{Sink, SinkFailed};
use esx_writing::AnswerBuffer;

/// The first lines of a report.
pub(crate) fn put_report_begin<W: Sink>(
    sink: &mut W,
    held: &mut AnswerBuffer,
    told: &Told,
) -> Result<(), SinkFailed>
    ensures bytes { Puts (W.contents sink.old) held.old (W.contents sink.new) held.new (report_begin told.now) result }
    ensures failures { W.failures sink.new ≡ W.failures sink.old + sink_faults result }
    ensures flushes { W.flushes sink.new ≡ W.flushes sink.old }
{
    put_report_head(sink, held)?;
    put_opened(sink, held, &told.opened)?;
    put_path(sink, held, &told.path)
}

/// The lines of the levels, of so many events.
fn put_levels<W: Sink>(
    sink: &mut W,
    held: &mut AnswerBuffer,
    levels: &Levels,
    events: u32,
) -> Result<(), SinkFailed>
    ensures bytes { Puts (W.contents sink.old) held.old (W.contents sink.new) held.new (level_lines levels.now events) result }
    ensures failures { W.failures sink.new ≡ W.failures sink.old + sink_faults result }
    ensures flushes { W.flushes sink.new ≡ W.flushes sink.old }
{
    put_first_level(sink, held, &levels.high, events)?;
    put_level(sink, held, &levels.soft, events)?;
    put_level(sink, held, &levels.hard, events)?;
    put_level(sink, held, &levels.low, events)
}

/// The lines of frames, pages and slots.
fn put_site_lines<W: Sink>(
    sink: &mut W,
    held: &mut AnswerBuffer,
    sums: &SiteSums,
) -> Result<(), SinkFailed>
    ensures bytes { Puts (W.contents sink.old) held.old (W.contents sink.new) held.new (site_lines sums.now) result }
    ensures failures { W.failures sink.new ≡ W.failures sink.old + sink_faults result }
    ensures flushes { W.flushes sink.new ≡ W.flushes sink.old }
{
    put_free(sink, held, sums)?;
    put_pages(sink, held, sums)?;
    put_saved(sink, held, sums)?;
    put_slots(sink, held, sums)
}

/// What is told of the site, behind an empty line.
pub(crate) fn put_site_text<W: Sink>(
    sink: &mut W,
    held: &mut AnswerBuffer,
    told: &Told,
) -> Result<(), SinkFailed>
    ensures bytes { Puts (W.contents sink.old) held.old (W.contents sink.new) held.new (site_text told.now) result }
    ensures failures { W.failures sink.new ≡ W.failures sink.old + sink_faults result }
    ensures flushes { W.flushes sink.new ≡ W.flushes sink.old }
{
    put_site_heading(sink, held)?;
    put_levels(sink, held, &told.levels, told.path.events)?;
    put_site_lines(sink, held, &told.site)
}
