//! One site, served from its opening on.

ghost use Rattle.std.specs.Prelude.{◌≡◌, IfOk, IfErr};
ghost use Rattle.esx_types.specs.Ranges.{IsConfig};
ghost use Rattle.esx_model.specs.Console.{Session};
ghost use Rattle.esx_text.specs.Answers.{Answers, AnswersIn, EndsEarly, EndsEarlyIn};
ghost use Rattle.esx_text.specs.States.{LeavesStreams, sink_state, source_state};
ghost use Rattle.esx_program.specs.Site.{at_opening};

use esx_console::Console;
use esx_events::Refusal;
use esx_text::{Manner, ServeFault, give_up, serve_in_manner};
use esx_told::TextLog;
use esx_types::{Config, Sink, Source};
use std::alloc::Global;
use std::mem;

/// Opens a site over a log that is kept as the text of its session.
fn open_told(alloc: Global, config: Config) -> Result<Console<TextLog>, Refusal>
    ensures { IfOk result (λ console. console ≡ at_opening config) }
{
    let log = TextLog::new(alloc)?;
    Console::over(alloc, config, log)
}

/// Serves the commands that are read at a console over such a log, as caller 0, in some manner. It is called for a console and
/// for a recording, so the compiler makes one loop for both.
pub fn serve_told<R: Source, W: Sink>(
    alloc: Global,
    console: &mut Console<TextLog>,
    reader: &mut R,
    writer: &mut W,
    manner: Manner,
) -> Result<u64, ServeFault>
    ensures ok { IfOk result (λ n. AnswersIn manner 0 n console.old console.new
        (R.remaining reader.old) (R.remaining reader.new) (W.contents writer.old) (W.contents writer.new)) }
    ensures fault { IfErr result (λ e. EndsEarlyIn manner e 0 console.old console.new
        (R.remaining reader.old) (R.remaining reader.new) (R.calls reader.old) (R.calls reader.new) (W.contents writer.old) (W.contents writer.new)) }
    ensures streams { LeavesStreams result
        (source_state R.remaining R.calls R.failures R.empty_reads R.asked reader.old) (source_state R.remaining R.calls R.failures R.empty_reads R.asked reader.new)
        (sink_state W.contents W.waiting W.failures W.flushes writer.old) (sink_state W.contents W.waiting W.failures W.flushes writer.new) }
{
    serve_in_manner(alloc, console, 0, reader, writer, manner)
}

/// Opens a site and serves the commands that are read, as caller 0, in some manner. Gives the number of lines.
///
/// A fault comes where an end failed, where the source gave no end in `READS` reads, or where memory ran
/// out; the answers to the lines before it were written.
pub fn serve_site_in_manner<R: Source, W: Sink>(
    alloc: Global,
    config: Config,
    reader: &mut R,
    writer: &mut W,
    manner: Manner,
) -> Result<u64, ServeFault>
    requires { IsConfig config }
    ensures ok { IfOk result (λ n. (after : Session) × AnswersIn manner 0 n (at_opening config) after
        (R.remaining reader.old) (R.remaining reader.new) (W.contents writer.old) (W.contents writer.new)) }
    ensures fault { IfErr result (λ e. (after : Session) × EndsEarlyIn manner e 0 (at_opening config) after
        (R.remaining reader.old) (R.remaining reader.new) (R.calls reader.old) (R.calls reader.new) (W.contents writer.old) (W.contents writer.new)) }
    ensures streams { LeavesStreams result
        (source_state R.remaining R.calls R.failures R.empty_reads R.asked reader.old) (source_state R.remaining R.calls R.failures R.empty_reads R.asked reader.new)
        (sink_state W.contents W.waiting W.failures W.flushes writer.old) (sink_state W.contents W.waiting W.failures W.flushes writer.new) }
{
    match open_told(alloc, config) {
        Ok(mut console) => {
            let served = serve_told(alloc, &mut console, reader, writer, manner);
            // The program ends with its site, and the system takes the memory back as a whole.
            mem::forget(console);
            served
        }
        Err(_) => Err(give_up(writer)),
    }
}

/// The same without an echo.
pub fn serve_site<R: Source, W: Sink>(
    alloc: Global,
    config: Config,
    reader: &mut R,
    writer: &mut W,
) -> Result<u64, ServeFault>
    requires { IsConfig config }
    ensures ok { IfOk result (λ n. (after : Session) × Answers 0 n (at_opening config) after
        (R.remaining reader.old) (R.remaining reader.new) (W.contents writer.old) (W.contents writer.new)) }
    ensures fault { IfErr result (λ e. (after : Session) × EndsEarly e 0 (at_opening config) after
        (R.remaining reader.old) (R.remaining reader.new) (R.calls reader.old) (R.calls reader.new) (W.contents writer.old) (W.contents writer.new)) }
    ensures streams { LeavesStreams result
        (source_state R.remaining R.calls R.failures R.empty_reads R.asked reader.old) (source_state R.remaining R.calls R.failures R.empty_reads R.asked reader.new)
        (sink_state W.contents W.waiting W.failures W.flushes writer.old) (sink_state W.contents W.waiting W.failures W.flushes writer.new) }
{
    serve_site_in_manner(alloc, config, reader, writer, Manner::Plain)
}
