//! Files and streams of the standard library, as the sources and sinks that the program reads and writes.

ghost use Rattle.std.specs.Prelude.{◌≡◌, ◌≤◌, IfOk, IfErr};
ghost use Rattle.esx_program.specs.Doing.{DoesOver};
ghost use Rattle.esx_program.specs.Failing.{AnswersQuestion, MayFail};
ghost use Rattle.esx_program.specs.Files.{IsSame};
ghost use Rattle.esx_program.specs.Status.{word_of_done};
ghost use Rattle.esx_program.specs.Words.{asked_of, question_of, AskAlike, MayBe};

use crate::commands::run_asked;
use crate::streams::{Ended, Streams};
use crate::words::Asked;
use esx_types::{ReadSource, Source, WriteSink};
use std::alloc::AllocGlobal;
use std::fs::{self, OpenFile};
use std::io::{self, Read, Write};
use std::rt::Files;
use std::sync::Wait;
use std::sync::ledger::{Blank, Ledger};
use std::thread::Threads;

/// Opens a file apart from the standard streams. Where one of them is closed, the system gives its number to what
/// is opened next; a clone has a number above theirs, and the closed stream stays closed.
fn open_apart<R: Files>(rt: &R, path: &str) -> io::Result<R::File> {
    fs::open(rt, path)?.try_clone()
}

/// The same of a path that may be named.
fn open_if_named<R: Files>(rt: &R, path: Option<&str>) -> Option<io::Result<R::File>>
    ensures { MayBe (λ _ _. Unit {0}) path.entry result }
{
    match path {
        Some(path) => Some(open_apart(rt, path)),
        None => None,
    }
}

/// What is asked for, with its file as it is opened.
pub fn opened<R: Files>(rt: &R, asked: Asked<&str>) -> Asked<io::Result<R::File>>
    ensures { AskAlike (λ _ _. Unit {0}) asked.entry result }
{
    match asked {
        Asked::Console(path, manner) => Asked::Console(open_if_named(rt, path), manner),
        Asked::Record(path) => Asked::Record(open_if_named(rt, path)),
        Asked::Run(path) => Asked::Run(open_apart(rt, path)),
        Asked::Replay(path) => Asked::Replay(open_apart(rt, path)),
        Asked::Check(path) => Asked::Check(open_apart(rt, path)),
        Asked::Diff(path) => Asked::Diff(open_apart(rt, path)),
        Asked::Migrate(path) => Asked::Migrate(open_apart(rt, path)),
        Asked::Report(path, question) => Asked::Report(open_apart(rt, path), question),
        Asked::Help => Asked::Help,
    }
}

/// A file as a source.
fn source_of<F: Read + Drop, L: Ledger>(
    opened: io::Result<F>,
    calls: Blank,
) -> io::Result<ReadSource<F, L>>
    requires name { calls.name ≡ L.name }
    requires parts { calls.parts ≡ L.parts }
    requires four { 4 ≤ calls.parts }
    ensures { IsSame F.remaining ⟦<ReadSource<F, L> as Source>⟧.remaining opened result }
{
    match opened {
        Ok(file) => Ok(ReadSource::new(file, calls)),
        Err(error) => Err(error),
    }
}

/// The same of a file that may be named.
fn source_if_named<F: Read + Drop, L: Ledger>(
    opened: Option<io::Result<F>>,
    calls: Blank,
) -> Option<io::Result<ReadSource<F, L>>>
    requires name { calls.name ≡ L.name }
    requires parts { calls.parts ≡ L.parts }
    requires four { 4 ≤ calls.parts }
    ensures { MayBe (IsSame F.remaining ⟦<ReadSource<F, L> as Source>⟧.remaining) opened result }
{
    match opened {
        Some(opened) => Some(source_of(opened, calls)),
        None => None,
    }
}

/// What is asked for, with its file as a source.
fn with_source<F: Read + Drop, L: Ledger>(
    asked: Asked<io::Result<F>>,
    calls: Blank,
) -> Asked<io::Result<ReadSource<F, L>>>
    requires name { calls.name ≡ L.name }
    requires parts { calls.parts ≡ L.parts }
    requires four { 4 ≤ calls.parts }
    ensures { AskAlike (IsSame F.remaining ⟦<ReadSource<F, L> as Source>⟧.remaining) asked result }
{
    match asked {
        Asked::Console(opened, manner) => Asked::Console(source_if_named(opened, calls), manner),
        Asked::Record(opened) => Asked::Record(source_if_named(opened, calls)),
        Asked::Run(opened) => Asked::Run(source_of(opened, calls)),
        Asked::Replay(opened) => Asked::Replay(source_of(opened, calls)),
        Asked::Check(opened) => Asked::Check(source_of(opened, calls)),
        Asked::Diff(opened) => Asked::Diff(source_of(opened, calls)),
        Asked::Migrate(opened) => Asked::Migrate(source_of(opened, calls)),
        Asked::Report(opened, question) => Asked::Report(source_of(opened, calls), question),
        Asked::Help => Asked::Help,
    }
}

/// Does what is asked for, of a file and over streams of the standard library, by counts of the calls of each.
pub fn run_counted<
    R: AllocGlobal + Threads + Wait + Sync,
    P: Print + Sync,
    F: Read + Drop,
    I: Read + Drop,
    E: Write + Drop,
    W: Write + Drop,
    Files: Ledger,
    In: Ledger,
    Told: Ledger,
    Out: Ledger,
>(
    rt: &R,
    asked: Asked<io::Result<F>>,
    to: Option<&P>,
    streams: Streams<I, E, W>,
    calls_file: Blank,
    calls_in: Blank,
    calls_told: Blank,
    calls_out: Blank,
) -> Ended<I, E, W>
    requires name_file { calls_file.name ≡ Files.name }
    requires parts_file { calls_file.parts ≡ Files.parts }
    requires four_file { 4 ≤ calls_file.parts }
    requires name_in { calls_in.name ≡ In.name }
    requires parts_in { calls_in.parts ≡ In.parts }
    requires four_in { 4 ≤ calls_in.parts }
    requires name_told { calls_told.name ≡ Told.name }
    requires parts_told { calls_told.parts ≡ Told.parts }
    requires four_told { 4 ≤ calls_told.parts }
    requires name_out { calls_out.name ≡ Out.name }
    requires parts_out { calls_out.parts ≡ Out.parts }
    requires four_out { 4 ≤ calls_out.parts }
    ensures word { IfOk result.ended (λ done. word_of_done done ≡ (asked_of asked).0) }
    ensures question { IfOk result.ended (λ done. AnswersQuestion done (question_of asked)) }
    ensures failure { IfErr result.ended (MayFail (asked_of asked)) }
    ensures does { DoesOver F.remaining asked result.ended (I.remaining streams.reader) (I.remaining result.streams.reader)
        (E.contents streams.errors) (E.contents result.streams.errors) (W.contents streams.writer) (W.contents result.streams.writer) }
{
    let Streams {
        reader,
        errors,
        writer,
    } = streams;
    let mut asked = with_source::<_, Files>(asked, calls_file);
    let streams = Streams {
        reader: ReadSource::<I, In>::new(reader, calls_in),
        errors: WriteSink::<E, Told>::new(errors, calls_told),
        writer: WriteSink::<W, Out>::new(writer, calls_out),
    };
    let Ended { ended, streams } = run_asked(rt, &mut asked, to, streams);
    let Streams {
        reader,
        errors,
        writer,
    } = streams;
    let streams = Streams {
        reader: reader.into_reader(),
        errors: errors.into_writer(),
        writer: writer.into_writer(),
    };
    Ended { ended, streams }
}
