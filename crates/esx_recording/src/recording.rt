//! A site as it is opened for a recording, and its session, told at the end.

ghost use Rattle.std.specs.Prelude.{◌≡◌, ◌+◌, [], IfOk, IfErr, OnOk};
ghost use Rattle.esx_console.specs.Calls.{opened_session};
ghost use Rattle.esx_text.specs.Own.{told_text};
ghost use Rattle.esx_writing.specs.Writing.{Writes, sink_faults};

use esx_console::Console;
use esx_events::Refusal;
use esx_text::ServeFault;
use esx_told::{Tells, TextLog};
use esx_types::{Config, Sink, SinkFailed};
use esx_writing::AnswerBuffer;
use std::alloc::Global;
use std::mem;

/// A site that was served, the number of lines, and room to tell its session.
#[derive(Drop)]
pub struct Made {
    pub console: Console<TextLog>,
    pub lines: u64,
    pub held: AnswerBuffer,
}

/// Opens a site over a log that is kept as the text of its session, and takes room to tell it.
pub fn open_with_room(
    alloc: Global,
    site: Config,
) -> Result<(Console<TextLog>, AnswerBuffer), Refusal>
    ensures opened { IfOk result (λ p. p.0 ≡ opened_session site) }
    ensures empty { IfOk result (λ p. p.1 ≡ []) }
{
    let held = AnswerBuffer::new(alloc)?;
    let log = TextLog::new(alloc)?;
    let console = Console::over(alloc, site, log)?;
    Ok((console, held))
}

/// Writes the session of a console, over an empty buffer, and hands it on.
fn tell_session<W: Sink>(
    console: &Console<TextLog>,
    held: &mut AnswerBuffer,
    writer: &mut W,
) -> Result<(), SinkFailed>
    requires { held.old ≡ [] }
    ensures bytes { Writes (W.contents writer.old) (W.contents writer.new) (told_text console.now) result }
    ensures failures { W.failures writer.new ≡ W.failures writer.old + sink_faults result }
    ensures flushes { W.flushes writer.new + sink_faults result ≡ W.flushes writer.old + 1 }
    ensures sent { OnOk result (W.waiting writer.new ≡ []) }
{
    console.kept().tell_session(writer, held, &console.site())?;
    writer.flush()
}

/// Writes the session of a site that was served, and gives the number of lines. The program ends with it, so the
/// system takes the memory of the console back as a whole.
pub fn tell<W: Sink>(made: Made, writer: &mut W) -> Result<u64, ServeFault>
    requires { made.held ≡ [] }
    ensures bytes { Writes (W.contents writer.old) (W.contents writer.new) (told_text made.console) result }
    ensures ok { IfOk result (λ lines. lines ≡ made.lines) }
    ensures fault { IfErr result (λ e. e ≡ ServeFault.Write) }
    ensures failures { W.failures writer.new ≡ W.failures writer.old + sink_faults result }
    ensures flushes { W.flushes writer.new + sink_faults result ≡ W.flushes writer.old + 1 }
    ensures sent { OnOk result (W.waiting writer.new ≡ []) }
{
    let Made {
        console,
        lines,
        mut held,
    } = made;
    let told = tell_session(&console, &mut held, writer);
    mem::forget(console);
    match told {
        Ok(()) => Ok(lines),
        Err(SinkFailed) => Err(ServeFault::Write),
    }
}

/// How a recording ended, with the number of lines that were read, and the sink of its errors as it is then.
#[derive(Drop)]
pub struct Recorded<E: Drop> {
    pub ended: Result<u64, ServeFault>,
    pub errors: E,
}
