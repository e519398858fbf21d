//! What the program does with a file and with streams, as it is asked for.

ghost use Rattle.std.specs.Prelude.{◌≡◌, ◌≤◌, Option, IfOk, IfErr};
ghost use Rattle.esx_text.specs.States.{sink_state, source_state};
ghost use Rattle.esx_program.specs.declared.words.Asked.{Asked as Wanted};
ghost use Rattle.esx_program.specs.Doing.{Does, EndsCheck, EndsDiff, EndsHelp, EndsMigrate, EndsReplay, EndsRun};
ghost use Rattle.esx_program.specs.Files.{AreLeft, IsLeft, Opened};
ghost use Rattle.esx_program.specs.Status.{TellsCheck, TellsDiff, TellsNoCheck, TellsNoDiff};

use crate::files::{scenario_of_file, script_of_file, session_of_file, text_of_file};
use crate::help::tell_help;
use crate::migrating::migrate_to;
use crate::reporting::report_file;
use crate::running::{Ran, run_to};
use crate::serving::{record_file, serve_file};
use crate::session::{check_watched, diff_watched, replay_watched, tell};
use crate::streams::{Ended, Streams};
use crate::words::Asked;
use crate::{Done, Failure};
use esx_check::OutputFault;
use esx_paths::At;
use esx_reports::Question;
use esx_types::{Sink, SinkFailed, Source};
use std::alloc::{AllocGlobal, Global};
use std::marker::Brand;
use std::sync::Wait;
use std::sync::ledger::Blank;
use std::thread::Threads;
use std::{io, mem};

/// Runs the scenario in a file, tells how its workers ended to `errors`, and writes the session that they made
/// to `writer`. How far they are is told to `to`, where there is one.
fn run_file<
    R: AllocGlobal + Threads + Wait + Sync,
    P: Print + Sync,
    F: Source,
    I: Drop,
    E: Sink + Drop,
    W: Sink + Drop,
>(rt: &R, opened: &mut io::Result<F>, to: Option<&P>, streams: Streams<I, E, W>) -> Ended<I, E, W>
    ensures ran { (read : Opened) × IsLeft (source_state F.remaining F.calls F.failures F.empty_reads F.asked) opened.old opened.new read
        × EndsRun read result.ended
        (sink_state E.contents E.waiting E.failures E.flushes streams.errors) (sink_state E.contents E.waiting E.failures E.flushes result.streams.errors)
        (sink_state W.contents W.waiting W.failures W.flushes streams.writer) (sink_state W.contents W.waiting W.failures W.flushes result.streams.writer) }
    ensures reader { result.streams.reader ≡ streams.reader }
{
    let scenario = match scenario_of_file(rt.alloc(), opened) {
        Ok(scenario) => scenario,
        Err(fault) => {
            let ended = Err(Failure::Text(fault));
            return Ended { ended, streams };
        }
    };
    let Streams {
        reader,
        errors,
        writer,
    } = streams;
    let Ran {
        ended: ran,
        errors,
        writer,
    } = run_to(rt, rt.alloc(), &scenario, to, errors, writer);
    let ended = match ran {
        Ok(()) => Ok(Done::Ran),
        Err(fault) => Err(Failure::Run(fault)),
    };
    let streams = Streams {
        reader,
        errors,
        writer,
    };
    Ended { ended, streams }
}

/// Writes the replies of the session in a file anew. How far it is, is told to `to`, where there is one.
fn replay_file<P: Print, F: Source, I: Drop, E: Drop, W: Sink + Drop>(
    alloc: Global,
    opened: &mut io::Result<F>,
    to: Option<&P>,
    streams: Streams<I, E, W>,
) -> Ended<I, E, W>
    ensures replayed { (read : Opened) × IsLeft (source_state F.remaining F.calls F.failures F.empty_reads F.asked) opened.old opened.new read
        × EndsReplay read result.ended
        (sink_state W.contents W.waiting W.failures W.flushes streams.writer) (sink_state W.contents W.waiting W.failures W.flushes result.streams.writer) }
    ensures reader { result.streams.reader ≡ streams.reader }
    ensures errors { result.streams.errors ≡ streams.errors }
{
    let script = match script_of_file(alloc, opened) {
        Ok(script) => script,
        Err(fault) => {
            let ended = Err(Failure::Text(fault));
            return Ended { ended, streams };
        }
    };
    let Streams {
        reader,
        errors,
        writer,
    } = streams;
    let replayed = replay_watched(alloc, script, to, writer);
    let ended = match replayed.ended {
        Ok(()) => Ok(Done::Replayed),
        Err(fault) => Err(Failure::Output(fault)),
    };
    let streams = Streams {
        reader,
        errors,
        writer: replayed.writer,
    };
    Ended { ended, streams }
}

/// Checks the session of a text, and tells a writer what came of it.
fn check_to<P: Print, W: Sink>(
    alloc: Global,
    text: &str,
    to: Option<&P>,
    writer: &mut W,
) -> Result<Done, Failure>
    ensures told { IfOk result (λ done. TellsCheck text.now done
        (sink_state W.contents W.waiting W.failures W.flushes writer.old) (sink_state W.contents W.waiting W.failures W.flushes writer.new)) }
    ensures failure { IfErr result (λ e. TellsNoCheck text.now e
        (sink_state W.contents W.waiting W.failures W.flushes writer.old) (sink_state W.contents W.waiting W.failures W.flushes writer.new)) }
{
    match check_watched(alloc, text, to) {
        Ok(checked) => match tell(alloc, &checked, writer) {
            Ok(()) => Ok(Done::Checked(checked)),
            Err(fault) => Err(Failure::Output(fault)),
        },
        Err(fault) => Err(Failure::Text(fault)),
    }
}

/// Checks the session in a file, while its text is read, and tells a writer what came of it. How far it is, is
/// told to `to`, where there is one.
fn check_file<P: Print, F: Source, W: Sink>(
    alloc: Global,
    opened: &mut io::Result<F>,
    to: Option<&P>,
    writer: &mut W,
) -> Result<Done, Failure>
    ensures { (read : Opened) × IsLeft (source_state F.remaining F.calls F.failures F.empty_reads F.asked) opened.old opened.new read
        × EndsCheck read result
        (sink_state W.contents W.waiting W.failures W.flushes writer.old) (sink_state W.contents W.waiting W.failures W.flushes writer.new) }
{
    match text_of_file(alloc, opened) {
        Ok(text) => check_to(alloc, text.as_str(), to, writer),
        Err(fault) => Err(Failure::Text(fault)),
    }
}

/// Checks the session of a text, and tells a writer what came of it, with a difference whole.
fn diff_to<P: Print, W: Sink>(
    alloc: Global,
    text: &str,
    to: Option<&P>,
    writer: &mut W,
) -> Result<Done, Failure>
    ensures told { IfOk result (λ done. TellsDiff text.now done
        (sink_state W.contents W.waiting W.failures W.flushes writer.old) (sink_state W.contents W.waiting W.failures W.flushes writer.new)) }
    ensures failure { IfErr result (λ e. TellsNoDiff text.now e
        (sink_state W.contents W.waiting W.failures W.flushes writer.old) (sink_state W.contents W.waiting W.failures W.flushes writer.new)) }
{
    match diff_watched(alloc, text, to) {
        Ok(compared) => match tell(alloc, &compared, writer) {
            Ok(()) => Ok(Done::Compared(compared.checked())),
            Err(fault) => Err(Failure::Output(fault)),
        },
        Err(fault) => Err(Failure::Text(fault)),
    }
}

/// Checks the session in a file, while its text is read, and tells a writer what came of it, with a difference whole.
/// How far it is, is told to `to`, where there is one.
fn diff_file<P: Print, F: Source, W: Sink>(
    alloc: Global,
    opened: &mut io::Result<F>,
    to: Option<&P>,
    writer: &mut W,
) -> Result<Done, Failure>
    ensures { (read : Opened) × IsLeft (source_state F.remaining F.calls F.failures F.empty_reads F.asked) opened.old opened.new read
        × EndsDiff read result
        (sink_state W.contents W.waiting W.failures W.flushes writer.old) (sink_state W.contents W.waiting W.failures W.flushes writer.new) }
{
    match text_of_file(alloc, opened) {
        Ok(text) => diff_to(alloc, text.as_str(), to, writer),
        Err(fault) => Err(Failure::Text(fault)),
    }
}

/// Writes the session in a file in version 2, or the line of its first call with another reply. How far it is, is told to
/// `to`, where there is one.
fn migrate_file<P: Print, F: Source, I: Drop, E: Drop, W: Sink + Drop>(
    alloc: Global,
    opened: &mut io::Result<F>,
    to: Option<&P>,
    streams: Streams<I, E, W>,
) -> Ended<I, E, W>
    ensures migrated { (read : Opened) × IsLeft (source_state F.remaining F.calls F.failures F.empty_reads F.asked) opened.old opened.new read
        × EndsMigrate read result.ended
        (sink_state W.contents W.waiting W.failures W.flushes streams.writer) (sink_state W.contents W.waiting W.failures W.flushes result.streams.writer) }
    ensures reader { result.streams.reader ≡ streams.reader }
    ensures errors { result.streams.errors ≡ streams.errors }
{
    let session = match session_of_file(alloc, opened) {
        Ok(session) => session,
        Err(fault) => {
            let ended = Err(Failure::Text(fault));
            return Ended { ended, streams };
        }
    };
    let Streams {
        reader,
        errors,
        writer,
    } = streams;
    let migrated = migrate_to(alloc, session, to, writer);
    let ended = match migrated.ended {
        Ok(checked) => Ok(Done::Migrated(checked)),
        Err(fault) => Err(Failure::Output(fault)),
    };
    let streams = Streams {
        reader,
        errors,
        writer: migrated.writer,
    };
    Ended { ended, streams }
}

/// Writes the words of the program.
fn help_to<W: Sink>(writer: &mut W) -> Result<Done, Failure>
    ensures { EndsHelp result
        (sink_state W.contents W.waiting W.failures W.flushes writer.old) (sink_state W.contents W.waiting W.failures W.flushes writer.new) }
{
    match tell_help(writer) {
        Ok(()) => Ok(Done::Helped),
        Err(SinkFailed) => Err(Failure::Output(OutputFault::Write)),
    }
}

/// Takes a question out. What stays in its place is asked of the end.
fn taken_out(question: &mut Question) -> Question
    ensures value { result ≡ question.old }
    ensures what { question.new.what ≡ question.old.what }
{
    let what = question.what;
    mem::replace(question, Question { at: At::End, what })
}

/// Does what is asked for. How far a long work is, is told to `to`, where there is one.
pub fn run_asked<
    R: AllocGlobal + Threads + Wait + Sync,
    P: Print + Sync,
    F: Source + Drop,
    I: Source + Drop,
    E: Sink + Drop,
    W: Sink + Drop,
>(
    rt: &R,
    asked: &mut Asked<io::Result<F>>,
    to: Option<&P>,
    mut streams: Streams<I, E, W>,
) -> Ended<I, E, W>
    ensures { (read : Wanted Opened) × AreLeft (source_state F.remaining F.calls F.failures F.empty_reads F.asked) asked.old asked.new read
        × Does read result.ended
        (source_state I.remaining I.calls I.failures I.empty_reads I.asked streams.reader) (source_state I.remaining I.calls I.failures I.empty_reads I.asked result.streams.reader)
        (sink_state E.contents E.waiting E.failures E.flushes streams.errors) (sink_state E.contents E.waiting E.failures E.flushes result.streams.errors)
        (sink_state W.contents W.waiting W.failures W.flushes streams.writer) (sink_state W.contents W.waiting W.failures W.flushes result.streams.writer) }
{
    match asked {
        Asked::Console(file, manner) => {
            let manner = *manner;
            serve_file::<_, _, _, _, _, Brand, Brand, Brand, Brand>(
                rt.alloc(),
                file,
                manner,
                to,
                streams,
                Blank::new(4),
            )
        }
        Asked::Record(file) => record_file(rt.alloc(), file, to, streams),
        Asked::Run(opened) => run_file(rt, opened, to, streams),
        Asked::Replay(opened) => replay_file(rt.alloc(), opened, to, streams),
        Asked::Check(opened) => {
            let ended = check_file(rt.alloc(), opened, to, &mut streams.writer);
            Ended { ended, streams }
        }
        Asked::Diff(opened) => {
            let ended = diff_file(rt.alloc(), opened, to, &mut streams.writer);
            Ended { ended, streams }
        }
        Asked::Migrate(opened) => migrate_file(rt.alloc(), opened, to, streams),
        Asked::Report(opened, question) => {
            let question = taken_out(question);
            let ended = report_file(rt.alloc(), opened, question, to, &mut streams.writer);
            Ended { ended, streams }
        }
        Asked::Help => {
            let ended = help_to(&mut streams.writer);
            Ended { ended, streams }
        }
    }
}
