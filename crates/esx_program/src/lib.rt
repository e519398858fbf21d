//! What the program does: a console over the standard streams, sessions gone through again, runs of scenarios, and its words.
#![tactic(auto)]

ghost use Rattle.std.specs.Prelude.{◌≡◌, map, string_bytes, IfOk, IfErr, IfSome};
ghost use Rattle.std.specs.Process.{exit_status};
ghost use Rattle.std.specs.Vec.Iter.{into_iter_items};
ghost use Rattle.esx_program.specs.Doing.{DoesGiven, DoesWords};
ghost use Rattle.esx_program.specs.Failing.{DoesAsked, EndsAsGiven, EndsWith, FailsAfter, refused_as};
ghost use Rattle.esx_program.specs.Given.{GivesWords, words_failure};
ghost use Rattle.esx_program.specs.Status.{status_of, status_of_report, status_of_words, status_of_end};

mod behind;
mod commands;
mod ends;
mod files;
mod gates;
mod help;
mod migrating;
mod outgoing;
mod progress;
mod recording;
mod reporting;
mod running;
mod serving;
mod session;
mod site;
mod standard;
mod streams;
mod words;

use esx_check::{Checked, OutputFault};
use esx_reading::TextFault;
use esx_reports::{ReportFault, What};
use esx_text::ServeFault;
use esx_types::{Config, MAX_NODES};
pub use help::tell_help;
pub use migrating::migrate_watched;
pub use running::RunFault;
use session::status_of_check;
pub use session::{check_watched, diff_watched};
pub use site::{serve_site, serve_site_in_manner};
use standard::opened;
pub use standard::run_counted;
use std::alloc::{AllocGlobal, Global};
use std::env::{self, Args, Env};
use std::io::{self, Eprint, ErrorKind, Input, IsTerminal, Print, Read, Stderr, Write};
use std::marker::Brand;
use std::process::ExitCode;
use std::rt::Files;
use std::sync::Wait;
use std::sync::ledger::Blank;
use std::thread::Threads;
pub use streams::{Ended, Streams};
use thiserror::Error;
pub use words::{Asked, WordsFault, asked_of_words};

/// The site of a console that is given no scenario: 20 frames of 16 bytes and 8 swap slots.
pub const SITE: Config = Config {
    frames: 20,
    page: 16,
    slots: 8,
    tau: 75,
    high: 6,
    soft: 4,
    hard: 2,
    low: 1,
    nodes: MAX_NODES,
};

/// Why the program ends otherwise than well.
#[derive(Debug, Drop, Error)]
pub enum Failure {
    #[error("wrong words")]
    Words,
    #[error("{0}")]
    Text(TextFault),
    #[error("{0}")]
    Serve(ServeFault),
    #[error("{0}")]
    Output(OutputFault),
    #[error("{0}")]
    Run(RunFault),
    #[error("{0}")]
    Report(ReportFault),
}

impl Failure {
    ghost use Rattle.std.specs.Prelude.{◌≡◌, option_map};
    ghost use Rattle.esx_program.specs.Status.{advice_of, status_of};

    /// What a person at a terminal is told behind it.
    pub fn advice(&self) -> Option<&'static str>
        ensures { option_map (λ s. s.now) result ≡ advice_of self.now }
    {
        match self {
            Failure::Words => Some("esxplan help lists the words"),
            _ => None,
        }
    }

    /// The status that the program ends with.
    pub fn status(&self) -> u8
        ensures { result ≡ status_of self.now }
    {
        match self {
            Failure::Words => 2,
            Failure::Text(TextFault::OutOfMemory) => 3,
            Failure::Text(_) => 1,
            Failure::Serve(ServeFault::Read | ServeFault::Write) => 1,
            Failure::Serve(ServeFault::OutOfMemory) => 3,
            Failure::Output(OutputFault::Write) => 1,
            Failure::Output(OutputFault::OutOfMemory) => 3,
            Failure::Run(RunFault::Refused(_) | RunFault::RefusedAt(_, _) | RunFault::Write) => 1,
            Failure::Run(RunFault::OutOfMemory) => 3,
            Failure::Report(fault) => status_of_report(fault),
        }
    }
}

/// The status that the program ends with where a question has no answer.
fn status_of_report(fault: &ReportFault) -> u8
    ensures { result ≡ status_of_report fault.now }
{
    match fault {
        ReportFault::Text(TextFault::OutOfMemory) => 3,
        ReportFault::Output(OutputFault::OutOfMemory) => 3,
        _ => 1,
    }
}

/// What was done, where the program ends well.
#[derive(Clone, Copy, Debug, PartialEq, Eq)]
pub enum Done {
    Served,
    Recorded,
    Ran,
    Replayed,
    Checked(Checked),
    Compared(Checked),
    Migrated(Checked),
    Answered(What),
    Helped,
}

impl Done {
    ghost use Rattle.std.specs.Prelude.{◌≡◌};
    ghost use Rattle.esx_program.specs.Status.{status_of_done};

    /// The status that the program ends with.
    pub fn status(self) -> u8
        ensures { result ≡ status_of_done self }
    {
        match self {
            Done::Served
            | Done::Recorded
            | Done::Ran
            | Done::Replayed
            | Done::Answered(_)
            | Done::Helped => 0,
            Done::Checked(checked) | Done::Compared(checked) | Done::Migrated(checked) => {
                status_of_check(checked)
            }
        }
    }
}

/// The words that the program was given, held in memory.
fn held_words(alloc: Global, args: Args) -> Result<Vec<String>, Failure>
    ensures ok { IfOk result (λ words. words.items ≡ into_iter_items args) }
    ensures memory { IfErr result (λ e. e ≡ Failure.Text TextFault.OutOfMemory) }
{
    match args.collect(alloc) {
        Ok(words) => Ok(words),
        Err(_) => Err(Failure::Text(TextFault::OutOfMemory)),
    }
}

/// How the program ends where its words could not be read.
fn failure_of_kind(kind: ErrorKind) -> Failure
    ensures { result ≡ words_failure kind }
{
    match kind {
        ErrorKind::OutOfMemory => Failure::Text(TextFault::OutOfMemory),
        _ => Failure::Words,
    }
}

/// The words that the program was given, its name first.
fn words_of(alloc: Global, given: io::Result<Args>) -> Result<Vec<String>, Failure>
    ensures { GivesWords given result }
{
    match given {
        Ok(args) => held_words(alloc, args),
        Err(error) => Err(failure_of_kind(error.kind())),
    }
}

/// How the program ends after words that ask for nothing.
fn failure_of_words(fault: WordsFault) -> Failure
    ensures status { status_of result ≡ status_of_words fault }
    ensures failure { result ≡ refused_as fault }
{
    match fault {
        WordsFault::Wrong => Failure::Words,
        WordsFault::OutOfMemory => Failure::Text(TextFault::OutOfMemory),
    }
}

/// Does what the words ask for, the first of which is the program's name.
pub fn run_words<
    R: Files + AllocGlobal + Threads + Wait + Sync,
    P: Print + Sync,
    I: Read + Drop,
    E: Write + Drop,
    W: Write + Drop,
>(rt: &R, words: &[String], to: Option<&P>, streams: Streams<I, E, W>) -> Ended<I, E, W>
    ensures done { IfOk result.ended (DoesAsked (map string_bytes words.now)) }
    ensures failure { IfErr result.ended (FailsAfter (map string_bytes words.now)) }
    ensures does { DoesWords R.File.remaining (map string_bytes words.now) result.ended (I.remaining streams.reader) (I.remaining result.streams.reader)
        (E.contents streams.errors) (E.contents result.streams.errors) (W.contents streams.writer) (W.contents result.streams.writer) }
{
    match asked_of_words(rt.alloc(), words) {
        Ok(asked) => run_counted::<_, _, _, _, _, _, Brand, Brand, Brand, Brand>(
            rt,
            opened(rt, asked),
            to,
            streams,
            Blank::new(4),
            Blank::new(4),
            Blank::new(4),
            Blank::new(4),
        ),
        Err(fault) => Ended {
            ended: Err(failure_of_words(fault)),
            streams,
        },
    }
}

/// Does what the words ask for that the program was given.
pub fn run_given<
    R: Files + AllocGlobal + Threads + Wait + Sync,
    P: Print + Sync,
    I: Read + Drop,
    E: Write + Drop,
    W: Write + Drop,
>(rt: &R, given: io::Result<Args>, to: Option<&P>, streams: Streams<I, E, W>) -> Ended<I, E, W>
    ensures ends { EndsWith given result.ended }
    ensures does { DoesGiven R.File.remaining given result.ended (I.remaining streams.reader) (I.remaining result.streams.reader)
        (E.contents streams.errors) (E.contents result.streams.errors) (W.contents streams.writer) (W.contents result.streams.writer) }
{
    match words_of(rt.alloc(), given) {
        Ok(words) => run_words(rt, words.as_slice(), to, streams),
        Err(failure) => Ended {
            ended: Err(failure),
            streams,
        },
    }
}

/// Where it is told how far a work is: a terminal.
pub fn terminal<E: IsTerminal>(errors: &E) -> Option<&E>
    ensures { IfSome result (λ to. to.now ≡ errors.now) }
{
    if errors.is_terminal() {
        Some(errors)
    } else {
        None
    }
}

/// Does what the program's words ask for, on the standard streams.
pub fn run<R: Env + Files + Input + Print + AllocGlobal + Threads + Wait + Sync>(
    rt: &R,
    errors: &Stderr,
) -> Result<Done, Failure>
    ensures { EndsAsGiven result }
{
    let streams = Streams {
        reader: rt.reader(),
        errors: io::writer(errors),
        writer: io::writer(rt),
    };
    run_given(rt, env::args(rt), terminal(errors), streams).ended
}

/// Tells why the program ends otherwise than well, and behind it, at a terminal, what helps.
fn tell_failure<R: Eprint, E: IsTerminal>(rt: &R, errors: &E, failure: Failure) {
    let advice = failure.advice();
    let _ = rt.eprintln(failure);
    if let (Some(_), Some(advice)) = (terminal(errors), advice) {
        let _ = rt.eprintln(advice);
    }
}

/// What the program ends with. Where it ends otherwise than well, the standard error is told why.
pub fn exit_code<R: Eprint, E: IsTerminal>(
    rt: &R,
    errors: &E,
    ended: Result<Done, Failure>,
) -> ExitCode
    ensures { exit_status result ≡ status_of_end ended }
{
    match ended {
        Ok(done) => ExitCode::from(done.status()),
        Err(failure) => {
            let status = failure.status();
            tell_failure(rt, errors, failure);
            ExitCode::from(status)
        }
    }
}
