//! A console and a recording, at the site of the scenario in a file or at the program's own.

ghost use Rattle.std.specs.Prelude.{◌≡◌, ◌≤◌, Option, IfOk, IfErr, false};
ghost use Rattle.esx_types.specs.Ranges.{IsConfig};
ghost use Rattle.esx_text.specs.States.{sink_state, source_state};
ghost use Rattle.esx_program.specs.Doing.{EndsConsole, EndsRecord, IsSiteAsked, LacksSite};
ghost use Rattle.esx_program.specs.Files.{MayBeLeft, Opened};

use crate::behind::{Behind, Telling};
use crate::files::scenario_of_file;
use crate::outgoing::{Outgoing, Waiting};
use crate::recording::record;
use crate::site::serve_site_in_manner;
use crate::streams::{Ended, Streams};
use crate::{Done, Failure, SITE};
use esx_explained::Explained;
use esx_reading::TextFault;
use esx_recording::{Before, Questions};
use esx_text::{Manner, give_up};
use esx_types::{Config, Sink, Source};
use std::alloc::Global;
use std::io;
use std::sync::ledger::{Blank, Ledger};

/// The site of the scenario in a file, or the program's own where no file is named.
fn site_asked<F: Source>(
    alloc: Global,
    file: &mut Option<io::Result<F>>,
) -> Result<Config, TextFault>
    ensures config { IfOk result IsConfig }
    ensures site { (read : Option Opened) × MayBeLeft (source_state F.remaining F.calls F.failures F.empty_reads F.asked) file.old file.new read
        × IfOk result (IsSiteAsked read) × IfErr result (LacksSite read) }
{
    match file {
        Some(opened) => match scenario_of_file(alloc, opened) {
            Ok(scenario) => Ok(scenario.config()),
            Err(fault) => Err(fault),
        },
        None => Ok(SITE),
    }
}

/// Serves a reader to a writer in some manner, at the site of a scenario if a file is named. The answers wait until more
/// input is asked for. Lines that are no command are explained to `to`, where there is one.
///
/// After a fault of writing the writer may lack some of the answers to the lines before it, and not of the last one
/// alone.
pub fn serve_file<
    P: Print,
    F: Source,
    I: Source + Drop,
    E: Sink + Drop,
    W: Sink + Drop,
    B: Before,
    K: Ledger,
    T: Telling,
    L: Ledger,
>(
    alloc: Global,
    file: &mut Option<io::Result<F>>,
    manner: Manner,
    to: Option<&P>,
    streams: Streams<I, E, W>,
    blank: Blank,
) -> Ended<I, E, W>
    requires questions { T.questions ≡ false }
    requires name { blank.name ≡ L.name }
    requires parts { blank.parts ≡ L.parts }
    requires four { 4 ≤ blank.parts }
    ensures served { (read : Option Opened) × MayBeLeft (source_state F.remaining F.calls F.failures F.empty_reads F.asked) file.old file.new read
        × EndsConsole read manner result.ended
        (source_state I.remaining I.calls I.failures I.empty_reads I.asked streams.reader) (source_state I.remaining I.calls I.failures I.empty_reads I.asked result.streams.reader)
        (sink_state W.contents W.waiting W.failures W.flushes streams.writer) (sink_state W.contents W.waiting W.failures W.flushes result.streams.writer) }
    ensures errors { result.streams.errors ≡ streams.errors }
{
    let site = match site_asked(alloc, file) {
        Ok(site) => site,
        Err(fault) => {
            let ended = Err(Failure::Text(fault));
            return Ended { ended, streams };
        }
    };
    let Streams {
        reader,
        errors,
        mut writer,
    } = streams;
    let Ok(waiting) = Waiting::new(alloc) else {
        let ended = Err(Failure::Serve(give_up(&mut writer)));
        let streams = Streams {
            reader,
            errors,
            writer,
        };
        return Ended { ended, streams };
    };
    let mut reader = Explained::new(alloc, reader, to);
    let behind = Behind::<W, Questions<E, B, K>, T>::writer(writer);
    let mut outgoing = Outgoing::<_, L>::new(behind, waiting, blank);
    let served = serve_site_in_manner(alloc, site, &mut reader, &mut outgoing, manner);
    let streams = Streams {
        reader: reader.into_reader(),
        errors,
        writer: outgoing.into_sink().into_writer(),
    };
    let ended = match served {
        Ok(_) => Ok(Done::Served),
        Err(fault) => Err(Failure::Serve(fault)),
    };
    Ended { ended, streams }
}

/// Makes the commands of a reader, at the site of a scenario if a file is named, and at their end tells their session to a
/// writer. Of the answers only those lines are told that begin with a question mark, to `errors`. Lines that are no command
/// are explained to `to`, where there is one.
pub fn record_file<P: Print, F: Source, I: Source + Drop, E: Sink + Drop, W: Sink + Drop>(
    alloc: Global,
    file: &mut Option<io::Result<F>>,
    to: Option<&P>,
    streams: Streams<I, E, W>,
) -> Ended<I, E, W>
    ensures { (read : Option Opened) × MayBeLeft (source_state F.remaining F.calls F.failures F.empty_reads F.asked) file.old file.new read
        × EndsRecord read result.ended
        (source_state I.remaining I.calls I.failures I.empty_reads I.asked streams.reader) (source_state I.remaining I.calls I.failures I.empty_reads I.asked result.streams.reader)
        (sink_state E.contents E.waiting E.failures E.flushes streams.errors) (sink_state E.contents E.waiting E.failures E.flushes result.streams.errors)
        (sink_state W.contents W.waiting W.failures W.flushes streams.writer) (sink_state W.contents W.waiting W.failures W.flushes result.streams.writer) }
{
    let site = match site_asked(alloc, file) {
        Ok(site) => site,
        Err(fault) => {
            let ended = Err(Failure::Text(fault));
            return Ended { ended, streams };
        }
    };
    let Streams {
        reader,
        errors,
        mut writer,
    } = streams;
    let mut reader = Explained::new(alloc, reader, to);
    let recorded = record(alloc, site, &mut reader, errors, &mut writer);
    let ended = match recorded.ended {
        Ok(_) => Ok(Done::Recorded),
        Err(fault) => Err(Failure::Serve(fault)),
    };
    let streams = Streams {
        reader: reader.into_reader(),
        errors: recorded.errors,
        writer,
    };
    Ended { ended, streams }
}
