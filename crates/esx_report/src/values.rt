//! The table of the site's names and values, as comma-separated values.

ghost use Rattle.std.specs.Prelude.{◌≡◌, ◌+◌};
ghost use Rattle.esx_writing.specs.Writing.{Puts, sink_faults};
ghost use Rattle.esx_report.specs.Values.{path_values, events_value, entered_value, extreme_values, refused_value, end_values, site_head};

use crate::field::Field;
use crate::part::{Part, put_parts};
use crate::site::{PathSums, mean_saved, saved};
use esx_sums::{LevelSums, SiteSums};
use esx_types::{Sink, SinkFailed};
use esx_writing::{AnswerBuffer, put_line};

/// The values of a path.
pub fn put_path_values<W: Sink>(
    sink: &mut W,
    held: &mut AnswerBuffer,
    path: &PathSums,
) -> Result<(), SinkFailed>
    ensures bytes { Puts (W.contents sink.old) held.old (W.contents sink.new) held.new (path_values path.now) result }
    ensures failures { W.failures sink.new ≡ W.failures sink.old + sink_faults result }
    ensures flushes { W.flushes sink.new ≡ W.flushes sink.old }
{
    put_parts(
        sink,
        held,
        &[
            Part::Text("events,"),
            Part::Shown(Field::Number(path.events as u64)),
            Part::Text("\n"),
            Part::Text("events_made,"),
            Part::Shown(Field::Number(path.made as u64)),
            Part::Text("\n"),
            Part::Text("node,"),
            Part::Shown(Field::Number(path.node as u64)),
            Part::Text("\n"),
            Part::Text("calls,"),
            Part::Shown(Field::Number(path.calls as u64)),
            Part::Text("\n"),
            Part::Text("refused_on_path,"),
            Part::Shown(Field::Number(path.refused as u64)),
            Part::Text("\n"),
            Part::Text("refused_elsewhere,"),
            Part::Shown(Field::Number(path.elsewhere as u64)),
            Part::Text("\n"),
        ],
    )
}

/// The value of the events of a level.
pub fn put_events_value<W: Sink>(
    sink: &mut W,
    held: &mut AnswerBuffer,
    sums: &LevelSums,
) -> Result<(), SinkFailed>
    ensures bytes { Puts (W.contents sink.old) held.old (W.contents sink.new) held.new (events_value sums.now) result }
    ensures failures { W.failures sink.new ≡ W.failures sink.old + sink_faults result }
    ensures flushes { W.flushes sink.new ≡ W.flushes sink.old }
{
    put_parts(
        sink,
        held,
        &[
            Part::Shown(Field::Level(sums.level)),
            Part::Text("_events,"),
            Part::Shown(Field::Number(sums.events as u64)),
            Part::Text("\n"),
        ],
    )
}

/// The value of how often a level was entered.
pub fn put_entered_value<W: Sink>(
    sink: &mut W,
    held: &mut AnswerBuffer,
    sums: &LevelSums,
) -> Result<(), SinkFailed>
    ensures bytes { Puts (W.contents sink.old) held.old (W.contents sink.new) held.new (entered_value sums.now) result }
    ensures failures { W.failures sink.new ≡ W.failures sink.old + sink_faults result }
    ensures flushes { W.flushes sink.new ≡ W.flushes sink.old }
{
    put_parts(
        sink,
        held,
        &[
            Part::Shown(Field::Level(sums.level)),
            Part::Text("_entered,"),
            Part::Shown(Field::Number(sums.entered as u64)),
            Part::Text("\n"),
        ],
    )
}

/// The values of what was least and most.
pub fn put_extreme_values<W: Sink>(
    sink: &mut W,
    held: &mut AnswerBuffer,
    sums: &SiteSums,
) -> Result<(), SinkFailed>
    ensures bytes { Puts (W.contents sink.old) held.old (W.contents sink.new) held.new (extreme_values sums.now) result }
    ensures failures { W.failures sink.new ≡ W.failures sink.old + sink_faults result }
    ensures flushes { W.flushes sink.new ≡ W.flushes sink.old }
{
    put_parts(
        sink,
        held,
        &[
            Part::Text("least_free,"),
            Part::Shown(Field::Number(sums.least_free.number as u64)),
            Part::Text("\n"),
            Part::Text("least_free_event,"),
            Part::Shown(Field::Number(sums.least_free.event as u64)),
            Part::Text("\n"),
            Part::Text("most_pages_here,"),
            Part::Shown(Field::Number(sums.most_pages.number as u64)),
            Part::Text("\n"),
            Part::Text("most_pages_here_event,"),
            Part::Shown(Field::Number(sums.most_pages.event as u64)),
            Part::Text("\n"),
            Part::Text("most_saved,"),
            Part::Shown(Field::Number(sums.most_saved.number as u64)),
            Part::Text("\n"),
            Part::Text("most_saved_event,"),
            Part::Shown(Field::Number(sums.most_saved.event as u64)),
            Part::Text("\n"),
            Part::Text("mean_saved,"),
            Part::Shown(mean_saved(sums)),
            Part::Text("\n"),
            Part::Text("most_slots,"),
            Part::Shown(Field::Number(sums.most_slots.number as u64)),
            Part::Text("\n"),
            Part::Text("most_slots_event,"),
            Part::Shown(Field::Number(sums.most_slots.event as u64)),
            Part::Text("\n"),
            Part::Text("rebalances,"),
            Part::Shown(Field::Number(sums.rebalances as u64)),
            Part::Text("\n"),
            Part::Text("revoked,"),
            Part::Shown(Field::Number(sums.revoked)),
            Part::Text("\n"),
        ],
    )
}

/// The value of how many calls were refused on the path by that number.
pub fn put_refused_value<W: Sink>(
    sink: &mut W,
    held: &mut AnswerBuffer,
    number: u64,
    count: u32,
) -> Result<(), SinkFailed>
    ensures bytes { Puts (W.contents sink.old) held.old (W.contents sink.new) held.new (refused_value number count) result }
    ensures failures { W.failures sink.new ≡ W.failures sink.old + sink_faults result }
    ensures flushes { W.flushes sink.new ≡ W.flushes sink.old }
{
    put_parts(
        sink,
        held,
        &[
            Part::Text("refused_"),
            Part::Shown(Field::Number(number)),
            Part::Text(","),
            Part::Shown(Field::Number(count as u64)),
            Part::Text("\n"),
        ],
    )
}

/// The values of pages and frames at the end.
pub fn put_end_values<W: Sink>(
    sink: &mut W,
    held: &mut AnswerBuffer,
    sums: &SiteSums,
) -> Result<(), SinkFailed>
    ensures bytes { Puts (W.contents sink.old) held.old (W.contents sink.new) held.new (end_values sums.now) result }
    ensures failures { W.failures sink.new ≡ W.failures sink.old + sink_faults result }
    ensures flushes { W.flushes sink.new ≡ W.flushes sink.old }
{
    put_parts(
        sink,
        held,
        &[
            Part::Text("pages_here,"),
            Part::Shown(Field::Number(sums.pages as u64)),
            Part::Text("\n"),
            Part::Text("pages_shared,"),
            Part::Shown(Field::Number(sums.shared as u64)),
            Part::Text("\n"),
            Part::Text("pages_sharing,"),
            Part::Shown(Field::Number(saved(sums))),
            Part::Text("\n"),
        ],
    )
}

/// The head of the table of names and values.
pub fn put_site_head<W: Sink>(sink: &mut W, held: &mut AnswerBuffer) -> Result<(), SinkFailed>
    ensures bytes { Puts (W.contents sink.old) held.old (W.contents sink.new) held.new site_head result }
    ensures failures { W.failures sink.new ≡ W.failures sink.old + sink_faults result }
    ensures flushes { W.flushes sink.new ≡ W.flushes sink.old }
{
    put_line(sink, held, &"name,value\n")
}
