//! A question about a session, answered.

ghost use Rattle.std.specs.Prelude.{◌≡◌, IfOk, IfErr};
ghost use Rattle.esx_reports.specs.Answers.{IsGood};
ghost use Rattle.esx_reports.specs.Telling.{IsAnswerOf, IsUnanswered};
ghost use Rattle.esx_text.specs.States.{sink_state, source_state};
ghost use Rattle.esx_program.specs.Files.{IsLeft, Opened};
ghost use Rattle.esx_program.specs.Reporting.{EndsReport, TellsAnswer, TellsNoAnswer};

use crate::files::long_text_of_file;
use crate::gates::Counting;
use crate::progress::Progress;
use crate::{Done, Failure};
use esx_reports::{Answer, Question, ReportFault, answer_of, tell_answer};
use esx_types::{Sink, Source};
use std::alloc::Global;
use std::io;

/// The answer to a question about the session of a text. How many of its calls were made again is told to `to`, where there
/// is one.
fn answer_watched<P: Print>(
    alloc: Global,
    text: &str,
    question: Question,
    to: Option<&P>,
) -> Result<Answer, ReportFault>
    ensures answer { IfOk result (IsAnswerOf text.now question) }
    ensures fault { IfErr result (IsUnanswered text.now question) }
    ensures good { IfOk result IsGood }
{
    let progress = Progress::new(to, None, "calls");
    let mut gate = Counting {
        progress: &progress,
    };
    let answered = answer_of(alloc, text, question, &mut gate);
    progress.end();
    answered
}

/// Answers a question about the session of a text, and writes the answer.
fn answer_to<P: Print, W: Sink>(
    alloc: Global,
    text: &str,
    question: Question,
    to: Option<&P>,
    writer: &mut W,
) -> Result<Done, Failure>
    ensures told { IfOk result (λ done. TellsAnswer text.now question done
        (sink_state W.contents W.waiting W.failures W.flushes writer.old) (sink_state W.contents W.waiting W.failures W.flushes writer.new)) }
    ensures failure { IfErr result (λ e. TellsNoAnswer text.now question e
        (sink_state W.contents W.waiting W.failures W.flushes writer.old) (sink_state W.contents W.waiting W.failures W.flushes writer.new)) }
{
    let what = question.what;
    let answer = match answer_watched(alloc, text, question, to) {
        Ok(answer) => answer,
        Err(fault) => return Err(Failure::Report(fault)),
    };
    match tell_answer(alloc, &answer, writer) {
        Ok(()) => Ok(Done::Answered(what)),
        Err(fault) => Err(Failure::Report(ReportFault::Output(fault))),
    }
}

/// Answers a question about the session in a file, and writes the answer. How far it is, is told to `to`, where there is one.
pub fn report_file<P: Print, F: Source, W: Sink>(
    alloc: Global,
    opened: &mut io::Result<F>,
    question: Question,
    to: Option<&P>,
    writer: &mut W,
) -> Result<Done, Failure>
    ensures { (read : Opened) × IsLeft (source_state F.remaining F.calls F.failures F.empty_reads F.asked) opened.old opened.new read
        × EndsReport read question result
        (sink_state W.contents W.waiting W.failures W.flushes writer.old) (sink_state W.contents W.waiting W.failures W.flushes writer.new) }
{
    match long_text_of_file(alloc, opened) {
        Ok(text) => answer_to(alloc, text.as_str(), question, to, writer),
        Err(fault) => Err(Failure::Text(fault)),
    }
}
