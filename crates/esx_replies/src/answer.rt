//! What accepted events answer.

ghost use Rattle.std.specs.Prelude.{◌≡◌, ◌+◌, OnOk, IsUtf8};
ghost use Rattle.esx_writing.specs.Writing.{Puts, sink_faults};
ghost use Rattle.esx_replies.specs.Replies.{answer_text, tried_text};

use crate::access::put_bytes;
use crate::admission::{put_admitted, put_started};
use crate::balloon::{put_goal, put_lent, put_reset, put_taken_back};
use crate::leaving::put_given_back;
use crate::paging::{put_paged_out, put_replaced, put_shared_out};
use crate::refusals::put_refusal;
use crate::sampling::{put_opened, put_rebalanced};
use crate::sharing::put_looked;
use esx_events::{Answer, Refusal};
use esx_types::{Sink, SinkFailed};
use esx_writing::{AnswerBuffer, put};

/// The answer of an event.
pub fn put_answer<W: Sink>(
    sink: &mut W,
    held: &mut AnswerBuffer,
    answer: &Answer,
) -> Result<(), SinkFailed>
    ensures bytes { Puts (W.contents sink.old) held.old (W.contents sink.new) held.new (answer_text answer.now) result }
    ensures utf8 { OnOk result (IsUtf8 (answer_text answer.now)) }
    ensures failures { W.failures sink.new ≡ W.failures sink.old + sink_faults result }
    ensures flushes { W.flushes sink.new ≡ W.flushes sink.old }
{
    match answer {
        Answer::Admitted { reserves } => put_admitted(sink, held, *reserves.get()),
        Answer::Started {
            running,
            frame,
            held: taken,
            overhead,
        } => put_started(sink, held, *frame, *taken, *overhead, *running),
        Answer::Bytes { bytes } => put_bytes(sink, held, bytes),
        Answer::Done => put(sink, held, "ok\n".as_bytes()),
        Answer::Goal { goal, lent, epoch } => put_goal(sink, held, *goal, *lent, *epoch),
        Answer::Reset { epoch } => put_reset(sink, held, *epoch),
        Answer::Lent { lent, goal } => put_lent(sink, held, *lent, *goal),
        Answer::TakenBack { lent } => put_taken_back(sink, held, *lent),
        Answer::Opened { length, pages } => put_opened(sink, held, *length, *pages),
        Answer::Rebalanced { need, revoked } => put_rebalanced(sink, held, *need, *revoked),
        Answer::Looked { scanned } => put_looked(sink, held, *scanned),
        Answer::PagedOut { page, slot } => put_paged_out(sink, held, *page, *slot),
        Answer::SharedOut { page, frame } => put_shared_out(sink, held, *page, *frame),
        Answer::Replaced { page, slot, frame } => put_replaced(sink, held, *page, *slot, *frame),
        Answer::GivenBack { held: kept } => put_given_back(sink, held, *kept),
        Answer::Gone => put(sink, held, "ok gone\n".as_bytes()),
    }
}

/// What an event answers or is refused with.
pub fn put_tried<W: Sink>(
    sink: &mut W,
    held: &mut AnswerBuffer,
    reply: &Result<Answer, Refusal>,
) -> Result<(), SinkFailed>
    ensures bytes { Puts (W.contents sink.old) held.old (W.contents sink.new) held.new (tried_text reply.now) result }
    ensures utf8 { OnOk result (IsUtf8 (tried_text reply.now)) }
    ensures failures { W.failures sink.new ≡ W.failures sink.old + sink_faults result }
    ensures flushes { W.flushes sink.new ≡ W.flushes sink.old }
{
    match reply {
        Ok(answer) => put_answer(sink, held, answer),
        Err(refusal) => put_refusal(sink, held, *refusal),
    }
}
