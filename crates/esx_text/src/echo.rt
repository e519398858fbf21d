//! The echo of a line, which is written before its answer.

ghost use Rattle.std.specs.Prelude.{◌≡◌, ◌+◌, ◌++◌, ◌∷◌, [], codes};
ghost use Rattle.esx_writing.specs.Writing.{Writes, sink_faults};
ghost use Rattle.esx_text.specs.Echo.{echo_in, echo_of, echo_text};

use crate::answer::{LONGEST, is_silent};
use esx_types::{Sink, SinkFailed};
use esx_writing::put_all;

/// How lines are served.
#[derive(Clone, Copy, Debug, PartialEq, Eq)]
pub enum Manner {
    /// Answers alone are written.
    Plain,
    /// Each line that is answered, and has at most `LONGEST` bytes, is written behind `> ` before its answer.
    Echoed,
}

/// A line, and the manner in which it is served.
#[derive(Clone, Copy)]
pub struct Echo<'a> {
    pub manner: Manner,
    pub line: &'a [u8],
}

/// Writes a line behind `> `, with a line feed.
fn write_line<W: Sink>(writer: &mut W, line: &[u8]) -> Result<(), SinkFailed>
    ensures bytes { Writes (W.contents writer.old) (W.contents writer.new) (codes "> " ++ (line.now ++ 10 ∷ [])) result }
    ensures failures { W.failures writer.new ≡ W.failures writer.old + sink_faults result }
    ensures flushes { W.flushes writer.new ≡ W.flushes writer.old }
{
    put_all(writer, b"> ")?;
    put_all(writer, line)?;
    put_all(writer, b"\n")
}

/// Writes what is echoed of a line.
#[inline(never)]
fn write_echoed<W: Sink>(writer: &mut W, line: &[u8]) -> Result<(), SinkFailed>
    ensures bytes { Writes (W.contents writer.old) (W.contents writer.new) (echo_text line.now) result }
    ensures failures { W.failures writer.new ≡ W.failures writer.old + sink_faults result }
    ensures flushes { W.flushes writer.new ≡ W.flushes writer.old }
{
    if is_silent(line) {
        return Ok(());
    }
    if line.len() > LONGEST {
        return Ok(());
    }
    write_line(writer, line)
}

/// Writes the echo of a line, where its manner has one.
#[inline(always)]
pub fn write_echo<W: Sink>(writer: &mut W, echo: &Echo) -> Result<(), SinkFailed>
    ensures bytes { Writes (W.contents writer.old) (W.contents writer.new) (echo_of echo.now) result }
    ensures failures { W.failures writer.new ≡ W.failures writer.old + sink_faults result }
    ensures flushes { W.flushes writer.new ≡ W.flushes writer.old }
{
    match echo.manner {
        Manner::Plain => Ok(()),
        Manner::Echoed => write_echoed(writer, echo.line),
    }
}
