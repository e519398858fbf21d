//! What is told of the site in the report.

ghost use Rattle.std.specs.Prelude.{◌≡◌, ◌+◌, ◌-◌};
ghost use Rattle.esx_writing.specs.Writing.{Puts, sink_faults};
ghost use Rattle.esx_report.specs.Site.{saved, mean_saved, opened_line, path_line, first_level_line, level_line, free_line, pages_line, saved_line, slots_line, level_losses_line, losses_heading, report_head, site_heading, guests_title, guests_note, level_losses_heading, report_end};

use crate::column::Cell;
use crate::field::Field;
use crate::part::{Part, put_parts};
use esx_sums::{LevelLosses, LevelSums, SiteSums};
use esx_types::{Sink, SinkFailed};
use esx_writing::{AnswerBuffer, put_line};

/// A site as it was opened, with the thresholds of its levels in frames, and the margin above a threshold at which
/// the level below it is left.
#[derive(Clone, Copy)]
pub struct Opened {
    pub frames: u32,
    pub page: u32,
    pub slots: u32,
    pub high: u32,
    pub soft: u32,
    pub hard: u32,
    pub low: u32,
    pub margin: u32,
}

/// A path: its events of all that were made, the node at which it ends, and the calls of the session, of which
/// so many were refused while the cursor was on the path, and so many elsewhere.
#[derive(Clone, Copy)]
pub struct PathSums {
    pub events: u32,
    pub made: u32,
    pub node: u32,
    pub calls: u32,
    pub refused: u32,
    pub elsewhere: u32,
}

/// What sharing saves at the end.
pub fn saved(sums: &SiteSums) -> u64
    ensures { result ≡ sums.now.pages - (sums.now.private + sums.now.shared) }
{
    (sums.pages as u64).saturating_sub(sums.private as u64 + sums.shared as u64)
}

/// What sharing saved after an event, on the average.
pub fn mean_saved(sums: &SiteSums) -> Field
    ensures { result ≡ mean_saved sums.now }
{
    Field::Fraction {
        over: sums.saved_sum,
        under: sums.events.max(1) as u64,
    }
}

/// The numbers of a site.
pub fn put_opened<W: Sink>(
    sink: &mut W,
    held: &mut AnswerBuffer,
    opened: &Opened,
) -> Result<(), SinkFailed>
    ensures bytes { Puts (W.contents sink.old) held.old (W.contents sink.new) held.new (opened_line opened.now) result }
    ensures failures { W.failures sink.new ≡ W.failures sink.old + sink_faults result }
    ensures flushes { W.flushes sink.new ≡ W.flushes sink.old }
{
    put_parts(
        sink,
        held,
        &[
            Part::Text("frames "),
            Part::Shown(Field::Number(opened.frames as u64)),
            Part::Text(" page "),
            Part::Shown(Field::Number(opened.page as u64)),
            Part::Text(" slots "),
            Part::Shown(Field::Number(opened.slots as u64)),
            Part::Text(" levels "),
            Part::Shown(Field::Number(opened.high as u64)),
            Part::Text(" "),
            Part::Shown(Field::Number(opened.soft as u64)),
            Part::Text(" "),
            Part::Shown(Field::Number(opened.hard as u64)),
            Part::Text(" "),
            Part::Shown(Field::Number(opened.low as u64)),
            Part::Text(" margin "),
            Part::Shown(Field::Number(opened.margin as u64)),
            Part::Text("\n"),
        ],
    )
}

/// The numbers of a path.
pub fn put_path<W: Sink>(
    sink: &mut W,
    held: &mut AnswerBuffer,
    path: &PathSums,
) -> Result<(), SinkFailed>
    ensures bytes { Puts (W.contents sink.old) held.old (W.contents sink.new) held.new (path_line path.now) result }
    ensures failures { W.failures sink.new ≡ W.failures sink.old + sink_faults result }
    ensures flushes { W.flushes sink.new ≡ W.flushes sink.old }
{
    put_parts(
        sink,
        held,
        &[
            Part::Text("path events "),
            Part::Shown(Field::Number(path.events as u64)),
            Part::Text(" of "),
            Part::Shown(Field::Number(path.made as u64)),
            Part::Text(" made, to node "),
            Part::Shown(Field::Number(path.node as u64)),
            Part::Text("; calls "),
            Part::Shown(Field::Number(path.calls as u64)),
            Part::Text(", refused on the path "),
            Part::Shown(Field::Number(path.refused as u64)),
            Part::Text(", elsewhere "),
            Part::Shown(Field::Number(path.elsewhere as u64)),
            Part::Text("\n"),
        ],
    )
}

/// The line of level high, at which a path begins.
pub fn put_first_level<W: Sink>(
    sink: &mut W,
    held: &mut AnswerBuffer,
    high: &LevelSums,
    events: u32,
) -> Result<(), SinkFailed>
    ensures bytes { Puts (W.contents sink.old) held.old (W.contents sink.new) held.new (first_level_line high.now events) result }
    ensures failures { W.failures sink.new ≡ W.failures sink.old + sink_faults result }
    ensures flushes { W.flushes sink.new ≡ W.flushes sink.old }
{
    put_parts(
        sink,
        held,
        &[
            Part::Text("  "),
            Part::Cell(Cell::Left(5, Field::Level(high.level))),
            Part::Text(" "),
            Part::Cell(Cell::Right(12, Field::Number(high.events as u64))),
            Part::Text(" "),
            Part::Cell(Cell::Right(
                6,
                Field::Percent {
                    part: high.events,
                    whole: events,
                },
            )),
            Part::Text("\n"),
        ],
    )
}

/// The line of a level, of so many events.
pub fn put_level<W: Sink>(
    sink: &mut W,
    held: &mut AnswerBuffer,
    sums: &LevelSums,
    events: u32,
) -> Result<(), SinkFailed>
    ensures bytes { Puts (W.contents sink.old) held.old (W.contents sink.new) held.new (level_line sums.now events) result }
    ensures failures { W.failures sink.new ≡ W.failures sink.old + sink_faults result }
    ensures flushes { W.flushes sink.new ≡ W.flushes sink.old }
{
    put_parts(
        sink,
        held,
        &[
            Part::Text("  "),
            Part::Cell(Cell::Left(5, Field::Level(sums.level))),
            Part::Text(" "),
            Part::Cell(Cell::Right(12, Field::Number(sums.events as u64))),
            Part::Text(" "),
            Part::Cell(Cell::Right(
                6,
                Field::Percent {
                    part: sums.events,
                    whole: events,
                },
            )),
            Part::Text(" "),
            Part::Cell(Cell::Right(8, Field::Number(sums.entered as u64))),
            Part::Text("\n"),
        ],
    )
}

/// The line of free frames.
pub fn put_free<W: Sink>(
    sink: &mut W,
    held: &mut AnswerBuffer,
    sums: &SiteSums,
) -> Result<(), SinkFailed>
    ensures bytes { Puts (W.contents sink.old) held.old (W.contents sink.new) held.new (free_line sums.now) result }
    ensures failures { W.failures sink.new ≡ W.failures sink.old + sink_faults result }
    ensures flushes { W.flushes sink.new ≡ W.flushes sink.old }
{
    put_parts(
        sink,
        held,
        &[
            Part::Text("  free least "),
            Part::Shown(Field::Number(sums.least_free.number as u64)),
            Part::Text(" at "),
            Part::Shown(Field::Number(sums.least_free.event as u64)),
            Part::Text(", now "),
            Part::Shown(Field::Number(sums.free as u64)),
            Part::Text("\n"),
        ],
    )
}

/// The line of pages in frames.
pub fn put_pages<W: Sink>(
    sink: &mut W,
    held: &mut AnswerBuffer,
    sums: &SiteSums,
) -> Result<(), SinkFailed>
    ensures bytes { Puts (W.contents sink.old) held.old (W.contents sink.new) held.new (pages_line sums.now) result }
    ensures failures { W.failures sink.new ≡ W.failures sink.old + sink_faults result }
    ensures flushes { W.flushes sink.new ≡ W.flushes sink.old }
{
    put_parts(
        sink,
        held,
        &[
            Part::Text("  pages in frames most "),
            Part::Shown(Field::Number(sums.most_pages.number as u64)),
            Part::Text(" at "),
            Part::Shown(Field::Number(sums.most_pages.event as u64)),
            Part::Text(", now "),
            Part::Shown(Field::Number(sums.pages as u64)),
            Part::Text(" in "),
            Part::Shown(Field::Number(sums.private as u64 + sums.shared as u64)),
            Part::Text(" frames\n"),
        ],
    )
}

/// The line of what sharing saved.
pub fn put_saved<W: Sink>(
    sink: &mut W,
    held: &mut AnswerBuffer,
    sums: &SiteSums,
) -> Result<(), SinkFailed>
    ensures bytes { Puts (W.contents sink.old) held.old (W.contents sink.new) held.new (saved_line sums.now) result }
    ensures failures { W.failures sink.new ≡ W.failures sink.old + sink_faults result }
    ensures flushes { W.flushes sink.new ≡ W.flushes sink.old }
{
    put_parts(
        sink,
        held,
        &[
            Part::Text("  saved by sharing most "),
            Part::Shown(Field::Number(sums.most_saved.number as u64)),
            Part::Text(" at "),
            Part::Shown(Field::Number(sums.most_saved.event as u64)),
            Part::Text(", mean "),
            Part::Shown(mean_saved(sums)),
            Part::Text(", now "),
            Part::Shown(Field::Number(saved(sums))),
            Part::Text("\n"),
        ],
    )
}

/// The line of slots and rebalances.
pub fn put_slots<W: Sink>(
    sink: &mut W,
    held: &mut AnswerBuffer,
    sums: &SiteSums,
) -> Result<(), SinkFailed>
    ensures bytes { Puts (W.contents sink.old) held.old (W.contents sink.new) held.new (slots_line sums.now) result }
    ensures failures { W.failures sink.new ≡ W.failures sink.old + sink_faults result }
    ensures flushes { W.flushes sink.new ≡ W.flushes sink.old }
{
    put_parts(
        sink,
        held,
        &[
            Part::Text("  slots most "),
            Part::Shown(Field::Number(sums.most_slots.number as u64)),
            Part::Text(" at "),
            Part::Shown(Field::Number(sums.most_slots.event as u64)),
            Part::Text(", now "),
            Part::Shown(Field::Number(sums.out as u64)),
            Part::Text("; rebalanced "),
            Part::Shown(Field::Number(sums.rebalances as u64)),
            Part::Text(" times, "),
            Part::Shown(Field::Number(sums.revoked)),
            Part::Text(" pages revoked\n"),
        ],
    )
}

/// The line of the losses of a level.
pub fn put_level_losses<W: Sink>(
    sink: &mut W,
    held: &mut AnswerBuffer,
    sums: &LevelLosses,
) -> Result<(), SinkFailed>
    ensures bytes { Puts (W.contents sink.old) held.old (W.contents sink.new) held.new (level_losses_line sums.now) result }
    ensures failures { W.failures sink.new ≡ W.failures sink.old + sink_faults result }
    ensures flushes { W.flushes sink.new ≡ W.flushes sink.old }
{
    put_parts(
        sink,
        held,
        &[
            Part::Text("  "),
            Part::Cell(Cell::Left(5, Field::Level(sums.level))),
            Part::Text(" "),
            Part::Cell(Cell::Right(7, Field::Number(sums.balloon as u64))),
            Part::Text(" "),
            Part::Cell(Cell::Right(7, Field::Number(sums.swap as u64))),
            Part::Text(" "),
            Part::Cell(Cell::Right(7, Field::Number(sums.replace as u64))),
            Part::Text(" "),
            Part::Cell(Cell::Right(7, Field::Number(sums.drop as u64))),
            Part::Text("\n"),
        ],
    )
}

/// The line above the table of losses, behind an empty line.
pub fn put_losses_heading<W: Sink>(
    sink: &mut W,
    held: &mut AnswerBuffer,
    count: u64,
) -> Result<(), SinkFailed>
    ensures bytes { Puts (W.contents sink.old) held.old (W.contents sink.new) held.new (losses_heading count) result }
    ensures failures { W.failures sink.new ≡ W.failures sink.old + sink_faults result }
    ensures flushes { W.flushes sink.new ≡ W.flushes sink.old }
{
    put_parts(
        sink,
        held,
        &[
            Part::Text("\nlosses "),
            Part::Shown(Field::Number(count)),
            Part::Text("\n"),
        ],
    )
}

/// The first line of a report.
pub fn put_report_head<W: Sink>(sink: &mut W, held: &mut AnswerBuffer) -> Result<(), SinkFailed>
    ensures bytes { Puts (W.contents sink.old) held.old (W.contents sink.new) held.new report_head result }
    ensures failures { W.failures sink.new ≡ W.failures sink.old + sink_faults result }
    ensures flushes { W.flushes sink.new ≡ W.flushes sink.old }
{
    put_line(sink, held, &"esx report 1\n")
}

/// The heading of the levels, behind an empty line.
pub fn put_site_heading<W: Sink>(sink: &mut W, held: &mut AnswerBuffer) -> Result<(), SinkFailed>
    ensures bytes { Puts (W.contents sink.old) held.old (W.contents sink.new) held.new site_heading result }
    ensures failures { W.failures sink.new ≡ W.failures sink.old + sink_faults result }
    ensures flushes { W.flushes sink.new ≡ W.flushes sink.old }
{
    put_line(
        sink,
        held,
        &"\nsite\n  level       events   part  entered\n",
    )
}

/// The title of the guests, behind an empty line.
pub fn put_guests_title<W: Sink>(sink: &mut W, held: &mut AnswerBuffer) -> Result<(), SinkFailed>
    ensures bytes { Puts (W.contents sink.old) held.old (W.contents sink.new) held.new guests_title result }
    ensures failures { W.failures sink.new ≡ W.failures sink.old + sink_faults result }
    ensures flushes { W.flushes sink.new ≡ W.flushes sink.old }
{
    put_line(sink, held, &"\nguests\n")
}

/// How a row of the guests adds up, and an empty line.
pub fn put_guests_note<W: Sink>(sink: &mut W, held: &mut AnswerBuffer) -> Result<(), SinkFailed>
    ensures bytes { Puts (W.contents sink.old) held.old (W.contents sink.new) held.new guests_note result }
    ensures failures { W.failures sink.new ≡ W.failures sink.old + sink_faults result }
    ensures flushes { W.flushes sink.new ≡ W.flushes sink.old }
{
    put_line(
        sink,
        held,
        &"  each row: first + popped + swapin - lost = here\n\n",
    )
}

/// The heading of the losses by level and mechanism.
pub fn put_level_losses_heading<W: Sink>(
    sink: &mut W,
    held: &mut AnswerBuffer,
) -> Result<(), SinkFailed>
    ensures bytes { Puts (W.contents sink.old) held.old (W.contents sink.new) held.new level_losses_heading result }
    ensures failures { W.failures sink.new ≡ W.failures sink.old + sink_faults result }
    ensures flushes { W.flushes sink.new ≡ W.flushes sink.old }
{
    put_line(
        sink,
        held,
        &"losses by level and mechanism\n  level  balloon    swap replace    drop\n",
    )
}

/// The last line of a report.
pub fn put_report_end<W: Sink>(sink: &mut W, held: &mut AnswerBuffer) -> Result<(), SinkFailed>
    ensures bytes { Puts (W.contents sink.old) held.old (W.contents sink.new) held.new report_end result }
    ensures failures { W.failures sink.new ≡ W.failures sink.old + sink_faults result }
    ensures flushes { W.flushes sink.new ≡ W.flushes sink.old }
{
    put_line(sink, held, &"end\n")
}
