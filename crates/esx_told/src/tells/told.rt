//! A session whose calls are a text already.

ghost use Rattle.std.specs.Prelude.{◌≡◌, ◌+◌, ◌++◌, [], flat_map, length, map};
ghost use Rattle.esx_writing.specs.Writing.{Writes, Puts, sink_faults};
ghost use Rattle.esx_session.specs.Sessions.{end_text, logged, session_text};
ghost use Rattle.esx_session.specs.Printing.{line_text};
ghost use Rattle.esx_told.specs.Told.{pending};
ghost use Rattle.esx_told.specs.Lines.{lines_of};

use crate::latest::Latest;
use crate::text_log::TextLog;
use esx_session::{put_end, put_line, put_opening};
use esx_types::{Config, Sink, SinkFailed};
use esx_writing::{AnswerBuffer, put, write_held};

/// The line that waits for its text, if there is one.
fn put_pending<W: Sink>(
    sink: &mut W,
    held: &mut AnswerBuffer,
    latest: &Latest,
) -> Result<(), SinkFailed>
    ensures bytes { Puts (W.contents sink.old) held.old (W.contents sink.new) held.new (flat_map line_text (pending latest.now)) result }
    ensures failures { W.failures sink.new ≡ W.failures sink.old + sink_faults result }
    ensures flushes { W.flushes sink.new ≡ W.flushes sink.old }
{
    match latest {
        Latest::Kept { line } => put_line(sink, held, line),
        _ => Ok(()),
    }
}

/// The calls and their replies.
fn put_lines<W: Sink>(
    sink: &mut W,
    held: &mut AnswerBuffer,
    log: &TextLog,
) -> Result<(), SinkFailed>
    ensures bytes { Puts (W.contents sink.old) held.old (W.contents sink.new) held.new (flat_map line_text (lines_of log.now)) result }
    ensures failures { W.failures sink.new ≡ W.failures sink.old + sink_faults result }
    ensures flushes { W.flushes sink.new ≡ W.flushes sink.old }
{
    put(sink, held, log.text())?;
    put_pending(sink, held, log.latest())
}

/// The lines behind that of the site.
fn put_calls<W: Sink>(
    sink: &mut W,
    held: &mut AnswerBuffer,
    log: &TextLog,
) -> Result<(), SinkFailed>
    ensures bytes { Puts (W.contents sink.old) held.old (W.contents sink.new) held.new (flat_map line_text (lines_of log.now) ++ end_text (length (lines_of log.now))) result }
    ensures failures { W.failures sink.new ≡ W.failures sink.old + sink_faults result }
    ensures flushes { W.flushes sink.new ≡ W.flushes sink.old }
{
    put_lines(sink, held, log)?;
    put_end(sink, held, log.count())
}

/// Puts the session of a site and a log.
fn put_told<W: Sink>(
    sink: &mut W,
    held: &mut AnswerBuffer,
    site: &Config,
    log: &TextLog,
) -> Result<(), SinkFailed>
    ensures bytes { Puts (W.contents sink.old) held.old (W.contents sink.new) held.new (session_text site.now (map logged (lines_of log.now))) result }
    ensures failures { W.failures sink.new ≡ W.failures sink.old + sink_faults result }
    ensures flushes { W.flushes sink.new ≡ W.flushes sink.old }
{
    put_opening(sink, held, site)?;
    put_calls(sink, held, log)
}

/// Writes the session of a site and a log, over an empty buffer.
pub fn write_told<W: Sink>(
    sink: &mut W,
    held: &mut AnswerBuffer,
    site: &Config,
    log: &TextLog,
) -> Result<(), SinkFailed>
    requires { held.old ≡ [] }
    ensures bytes { Writes (W.contents sink.old) (W.contents sink.new) (session_text site.now (map logged (lines_of log.now))) result }
    ensures empty { held.new ≡ [] }
    ensures failures { W.failures sink.new ≡ W.failures sink.old + sink_faults result }
    ensures flushes { W.flushes sink.new ≡ W.flushes sink.old }
{
    put_told(sink, held, site, log)?;
    write_held(sink, held)
}
