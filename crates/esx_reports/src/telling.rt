//! A question about a session, answered, and the answer written.

ghost use Rattle.std.specs.Prelude.{◌≡◌, ◌+◌, [], ℕ, List, IfOk, IfErr, OnOk};
ghost use Rattle.std.specs.Io.KnownBytes.{Appends};
ghost use Rattle.esx_writing.specs.Writing.{Writes, sink_faults};
ghost use Rattle.esx_reports.specs.Answers.{IsGood, IsTextOf};
ghost use Rattle.esx_reports.specs.Telling.{IsAnswerOf, IsUnanswered, StopsAnswer, failed_writes, flushes_made};

use crate::answer::{Answer, put_answer};
use crate::asking::answer_to;
use crate::fault::ReportFault;
use crate::path::path_meant;
use crate::question::Question;
use esx_check::OutputFault;
use esx_door::Gate;
use esx_types::{Sink, SinkFailed};
use esx_writing::{AnswerBuffer, write_held};
use std::alloc::Global;

/// The answer to a question about the session of a text. The session is checked first; before each of its calls that is made
/// again the gate is passed.
///
/// The path to the node that is meant is told, whatever was pruned since. Two passes go over the text; beside it and the tables
/// of the site there are 24 bytes for each node, a row for each call that was refused and each loss, and the calls themselves.
pub fn answer_of<G: Gate>(
    alloc: Global,
    text: &str,
    question: Question,
    gate: &mut G,
) -> Result<Answer, ReportFault>
    ensures answer { IfOk result (IsAnswerOf text.now question) }
    ensures fault { IfErr result (IsUnanswered text.now question) }
    ensures good { IfOk result IsGood }
{
    let path = path_meant(alloc, text, question.at, gate)?;
    answer_to(alloc, text, &path, question.what)
}

/// Writes the text of an answer, over an empty buffer.
fn write_text<W: Sink>(
    writer: &mut W,
    held: &mut AnswerBuffer,
    answer: &Answer,
) -> Result<(), SinkFailed>
    requires empty { held.old ≡ [] }
    requires good { IsGood answer.now }
    ensures bytes { (text : List ℕ) × IsTextOf answer.now text × Writes (W.contents writer.old) (W.contents writer.new) text result }
    ensures failures { W.failures writer.new ≡ W.failures writer.old + sink_faults result }
    ensures flushes { W.flushes writer.new ≡ W.flushes writer.old }
{
    put_answer(writer, held, answer)?;
    write_held(writer, held)
}

/// The same, and hands it on.
fn write_answer<W: Sink>(
    writer: &mut W,
    held: &mut AnswerBuffer,
    answer: &Answer,
) -> Result<(), SinkFailed>
    requires empty { held.old ≡ [] }
    requires good { IsGood answer.now }
    ensures bytes { (text : List ℕ) × IsTextOf answer.now text × Writes (W.contents writer.old) (W.contents writer.new) text result }
    ensures failures { W.failures writer.new ≡ W.failures writer.old + sink_faults result }
    ensures flushes { W.flushes writer.new + sink_faults result ≡ W.flushes writer.old + 1 }
    ensures sent { OnOk result (W.waiting writer.new ≡ []) }
{
    write_text(writer, held, answer)?;
    writer.flush()
}

/// Writes an answer and hands it on, where there is memory for a buffer; where there is none, the writer is as it was.
///
/// condition: the numbers of the rows that are told are in their ranges, as they are in each answer of `answer_of`
pub fn tell_answer<W: Sink>(
    alloc: Global,
    answer: &Answer,
    writer: &mut W,
) -> Result<(), OutputFault>
    requires { IsGood answer.now }
    ensures told { OnOk result ((text : List ℕ) × IsTextOf answer.now text × Appends (W.contents writer.old) (W.contents writer.new) text) }
    ensures fault { IfErr result (λ e. StopsAnswer e answer.now (W.contents writer.old) (W.contents writer.new)) }
    ensures same { IfErr result (λ e. e ≡ OutputFault.OutOfMemory → writer.new ≡ writer.old) }
    ensures failures { W.failures writer.new ≡ W.failures writer.old + failed_writes result }
    ensures flushes { W.flushes writer.new ≡ W.flushes writer.old + flushes_made result }
    ensures sent { OnOk result (W.waiting writer.new ≡ []) }
{
    let Ok(mut held) = AnswerBuffer::new(alloc) else {
        return Err(OutputFault::OutOfMemory);
    };
    match write_answer(writer, &mut held, answer) {
        Ok(()) => Ok(()),
        Err(SinkFailed) => Err(OutputFault::Write),
    }
}
