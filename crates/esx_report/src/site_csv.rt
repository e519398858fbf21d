//! The whole table of the site's names and values, as comma-separated values.

ghost use Rattle.std.specs.Prelude.{◌≡◌, ◌+◌};
ghost use Rattle.esx_writing.specs.Writing.{Puts, sink_faults};
ghost use Rattle.esx_report.specs.SiteTable.{events_values, entered_values, refusal_value, refused_values, site_csv};

use crate::told::Told;
use crate::values::{
    put_end_values, put_entered_value, put_events_value, put_extreme_values, put_path_values,
    put_refused_value, put_site_head,
};
use esx_sums::Levels;
use esx_types::{Sink, SinkFailed};
use esx_writing::AnswerBuffer;

/// The values of the events of each level.
fn put_events_values<W: Sink>(
    sink: &mut W,
    held: &mut AnswerBuffer,
    levels: &Levels,
) -> Result<(), SinkFailed>
    ensures bytes { Puts (W.contents sink.old) held.old (W.contents sink.new) held.new (events_values levels.now) result }
    ensures failures { W.failures sink.new ≡ W.failures sink.old + sink_faults result }
    ensures flushes { W.flushes sink.new ≡ W.flushes sink.old }
{
    put_events_value(sink, held, &levels.high)?;
    put_events_value(sink, held, &levels.soft)?;
    put_events_value(sink, held, &levels.hard)?;
    put_events_value(sink, held, &levels.low)
}

/// The values of how often each level below high was entered.
fn put_entered_values<W: Sink>(
    sink: &mut W,
    held: &mut AnswerBuffer,
    levels: &Levels,
) -> Result<(), SinkFailed>
    ensures bytes { Puts (W.contents sink.old) held.old (W.contents sink.new) held.new (entered_values levels.now) result }
    ensures failures { W.failures sink.new ≡ W.failures sink.old + sink_faults result }
    ensures flushes { W.flushes sink.new ≡ W.flushes sink.old }
{
    put_entered_value(sink, held, &levels.soft)?;
    put_entered_value(sink, held, &levels.hard)?;
    put_entered_value(sink, held, &levels.low)
}

/// The value of how many calls were refused by that number. Nothing where none was.
fn put_refusal_value<W: Sink>(
    sink: &mut W,
    held: &mut AnswerBuffer,
    number: u64,
    count: u32,
) -> Result<(), SinkFailed>
    ensures bytes { Puts (W.contents sink.old) held.old (W.contents sink.new) held.new (refusal_value (number, count)) result }
    ensures failures { W.failures sink.new ≡ W.failures sink.old + sink_faults result }
    ensures flushes { W.flushes sink.new ≡ W.flushes sink.old }
{
    if count == 0 {
        return Ok(());
    }
    put_refused_value(sink, held, number, count)
}

/// The values of refused calls by number, from 0 up.
fn put_refused_values<W: Sink>(
    sink: &mut W,
    held: &mut AnswerBuffer,
    refusals: &[u32],
) -> Result<(), SinkFailed>
    ensures bytes { Puts (W.contents sink.old) held.old (W.contents sink.new) held.new (refused_values refusals.now) result }
    ensures failures { W.failures sink.new ≡ W.failures sink.old + sink_faults result }
    ensures flushes { W.flushes sink.new ≡ W.flushes sink.old }
{
    for (number, count) in refusals.iter().enumerate() {
        put_refusal_value(sink, held, number as u64, *count)?;
    }
    Ok(())
}

/// The table of the site: its head, and a row with a name and a value for each number.
///
/// The numbers of the path come first, then those of its levels, what was least and most, how many calls were
/// refused on the path by each number by which any was, and what stood at its end.
pub fn put_site<W: Sink>(
    sink: &mut W,
    held: &mut AnswerBuffer,
    told: &Told,
) -> Result<(), SinkFailed>
    ensures bytes { Puts (W.contents sink.old) held.old (W.contents sink.new) held.new (site_csv told.now) result }
    ensures failures { W.failures sink.new ≡ W.failures sink.old + sink_faults result }
    ensures flushes { W.flushes sink.new ≡ W.flushes sink.old }
{
    put_site_head(sink, held)?;
    put_path_values(sink, held, &told.path)?;
    put_events_values(sink, held, &told.levels)?;
    put_entered_values(sink, held, &told.levels)?;
    put_extreme_values(sink, held, &told.site)?;
    put_refused_values(sink, held, told.refusals)?;
    put_end_values(sink, held, &told.site)
}
