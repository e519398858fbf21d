//! What would come of some events.

ghost use Rattle.std.specs.Prelude.{◌≡◌, ◌+◌, ◌++◌, ◌≤◌, ◌∷◌, [], OnOk, IsUtf8, codes};
ghost use Rattle.esx_writing.specs.Writing.{Puts, sink_faults};
ghost use Rattle.esx_replies.specs.Signs.{behind, begun};
ghost use Rattle.esx_replies.specs.Replies.{accepted, number_head, numbered_text, tried_texts, sides_head, before_text, after_text, sides_text};

use crate::answer::put_tried;
use crate::questions::put_sum;
use crate::sign::Sign;
use esx_events::{Answer, Refusal, Sides, Sum};
use esx_types::{Sink, SinkFailed};
use esx_writing::{AnswerBuffer, line, put_line};

/// The number of a tried event.
fn put_number<W: Sink>(sink: &mut W, held: &mut AnswerBuffer, number: u64) -> Result<(), SinkFailed>
    ensures bytes { Puts (W.contents sink.old) held.old (W.contents sink.new) held.new (number_head number) result }
    ensures utf8 { OnOk result (IsUtf8 (number_head number)) }
    ensures failures { W.failures sink.new ≡ W.failures sink.old + sink_faults result }
    ensures flushes { W.flushes sink.new ≡ W.flushes sink.old }
{
    put_line(sink, held, &line![number, " "])
}

/// A tried event's number and what it answers.
fn put_numbered<W: Sink>(
    sink: &mut W,
    held: &mut AnswerBuffer,
    number: u64,
    reply: &Result<Answer, Refusal>,
) -> Result<(), SinkFailed>
    ensures bytes { Puts (W.contents sink.old) held.old (W.contents sink.new) held.new (numbered_text number reply.now) result }
    ensures utf8 { OnOk result (IsUtf8 (numbered_text number reply.now)) }
    ensures failures { W.failures sink.new ≡ W.failures sink.old + sink_faults result }
    ensures flushes { W.flushes sink.new ≡ W.flushes sink.old }
{
    put_number(sink, held, number)?;
    put_tried(sink, held, reply)
}

/// The same behind a sign.
#[inline(always)]
fn put_numbered_line<S: Sign, W: Sink>(
    sink: &mut W,
    held: &mut AnswerBuffer,
    number: u64,
    reply: &Result<Answer, Refusal>,
) -> Result<(), SinkFailed>
    ensures bytes { Puts (W.contents sink.old) held.old (W.contents sink.new) held.new (behind S.text (numbered_text number reply.now)) result }
    ensures utf8 { OnOk result (IsUtf8 (behind S.text (numbered_text number reply.now))) }
    ensures failures { W.failures sink.new ≡ W.failures sink.old + sink_faults result }
    ensures flushes { W.flushes sink.new ≡ W.flushes sink.old }
{
    S::put(sink, held)?;
    put_numbered(sink, held, number, reply)
}

/// What all tried events answer.
fn put_all_tried<S: Sign, W: Sink>(
    sink: &mut W,
    held: &mut AnswerBuffer,
    replies: &[Result<Answer, Refusal>],
) -> Result<(), SinkFailed>
    ensures bytes { Puts (W.contents sink.old) held.old (W.contents sink.new) held.new (behind S.text (tried_texts 1 replies.now)) result }
    ensures utf8 { OnOk result (IsUtf8 (behind S.text (tried_texts 1 replies.now))) }
    ensures failures { W.failures sink.new ≡ W.failures sink.old + sink_faults result }
    ensures flushes { W.flushes sink.new ≡ W.flushes sink.old }
{
    let mut number = 0;
    for reply in replies {
        number += 1;
        put_numbered_line::<S, W>(sink, held, number, reply)?;
    }
    Ok(())
}

/// One where the event was accepted.
fn one_if_accepted(reply: &Result<Answer, Refusal>) -> u64
    ensures count { result ≡ accepted (reply.now ∷ []) }
    ensures few { result ≤ 1 }
{
    match reply {
        Ok(_) => 1,
        Err(_) => 0,
    }
}

/// How many of the tried events were accepted.
fn accepted(replies: &[Result<Answer, Refusal>]) -> u64
    ensures { result ≡ accepted replies.now }
{
    let mut count = 0;
    for reply in replies {
        count += one_if_accepted(reply);
    }
    count
}

/// How many were accepted, of how many.
fn put_sides_head<W: Sink>(
    sink: &mut W,
    held: &mut AnswerBuffer,
    count: u64,
    given: u32,
) -> Result<(), SinkFailed>
    ensures bytes { Puts (W.contents sink.old) held.old (W.contents sink.new) held.new (sides_head count given) result }
    ensures utf8 { OnOk result (IsUtf8 (sides_head count given)) }
    ensures failures { W.failures sink.new ≡ W.failures sink.old + sink_faults result }
    ensures flushes { W.flushes sink.new ≡ W.flushes sink.old }
{
    put_line(
        sink,
        held,
        &line!["whatif ", count, "/", u64::from(given), "\n"],
    )
}

/// The word of this side.
fn put_before_word<W: Sink>(sink: &mut W, held: &mut AnswerBuffer) -> Result<(), SinkFailed>
    ensures bytes { Puts (W.contents sink.old) held.old (W.contents sink.new) held.new (codes "before ") result }
    ensures utf8 { OnOk result (IsUtf8 (codes "before ")) }
    ensures failures { W.failures sink.new ≡ W.failures sink.old + sink_faults result }
    ensures flushes { W.flushes sink.new ≡ W.flushes sink.old }
{
    put_line(sink, held, &"before ")
}

/// The sum before them.
fn put_before<W: Sink>(sink: &mut W, held: &mut AnswerBuffer, sum: Sum) -> Result<(), SinkFailed>
    ensures bytes { Puts (W.contents sink.old) held.old (W.contents sink.new) held.new (before_text sum) result }
    ensures utf8 { OnOk result (IsUtf8 (before_text sum)) }
    ensures failures { W.failures sink.new ≡ W.failures sink.old + sink_faults result }
    ensures flushes { W.flushes sink.new ≡ W.flushes sink.old }
{
    put_before_word(sink, held)?;
    put_sum(sink, held, sum)
}

/// The same behind a sign.
#[inline(always)]
fn put_before_line<S: Sign, W: Sink>(
    sink: &mut W,
    held: &mut AnswerBuffer,
    sum: Sum,
) -> Result<(), SinkFailed>
    ensures bytes { Puts (W.contents sink.old) held.old (W.contents sink.new) held.new (behind S.text (before_text sum)) result }
    ensures utf8 { OnOk result (IsUtf8 (behind S.text (before_text sum))) }
    ensures failures { W.failures sink.new ≡ W.failures sink.old + sink_faults result }
    ensures flushes { W.flushes sink.new ≡ W.flushes sink.old }
{
    S::put(sink, held)?;
    put_before(sink, held, sum)
}

/// The word of this side.
fn put_after_word<W: Sink>(sink: &mut W, held: &mut AnswerBuffer) -> Result<(), SinkFailed>
    ensures bytes { Puts (W.contents sink.old) held.old (W.contents sink.new) held.new (codes "after ") result }
    ensures utf8 { OnOk result (IsUtf8 (codes "after ")) }
    ensures failures { W.failures sink.new ≡ W.failures sink.old + sink_faults result }
    ensures flushes { W.flushes sink.new ≡ W.flushes sink.old }
{
    put_line(sink, held, &"after ")
}

/// The sum after them.
fn put_after<W: Sink>(sink: &mut W, held: &mut AnswerBuffer, sum: Sum) -> Result<(), SinkFailed>
    ensures bytes { Puts (W.contents sink.old) held.old (W.contents sink.new) held.new (after_text sum) result }
    ensures utf8 { OnOk result (IsUtf8 (after_text sum)) }
    ensures failures { W.failures sink.new ≡ W.failures sink.old + sink_faults result }
    ensures flushes { W.flushes sink.new ≡ W.flushes sink.old }
{
    put_after_word(sink, held)?;
    put_sum(sink, held, sum)
}

/// The same behind a sign.
#[inline(always)]
fn put_after_line<S: Sign, W: Sink>(
    sink: &mut W,
    held: &mut AnswerBuffer,
    sum: Sum,
) -> Result<(), SinkFailed>
    ensures bytes { Puts (W.contents sink.old) held.old (W.contents sink.new) held.new (behind S.text (after_text sum)) result }
    ensures utf8 { OnOk result (IsUtf8 (behind S.text (after_text sum))) }
    ensures failures { W.failures sink.new ≡ W.failures sink.old + sink_faults result }
    ensures flushes { W.flushes sink.new ≡ W.flushes sink.old }
{
    S::put(sink, held)?;
    put_after(sink, held, sum)
}

/// The tried events and the sum after them.
fn put_tail<S: Sign, W: Sink>(
    sink: &mut W,
    held: &mut AnswerBuffer,
    replies: &[Result<Answer, Refusal>],
    after: Sum,
) -> Result<(), SinkFailed>
    ensures bytes { Puts (W.contents sink.old) held.old (W.contents sink.new) held.new (behind S.text (tried_texts 1 replies.now ++ after_text after)) result }
    ensures utf8 { OnOk result (IsUtf8 (behind S.text (tried_texts 1 replies.now ++ after_text after))) }
    ensures failures { W.failures sink.new ≡ W.failures sink.old + sink_faults result }
    ensures flushes { W.flushes sink.new ≡ W.flushes sink.old }
{
    put_all_tried::<S, W>(sink, held, replies)?;
    put_after_line::<S, W>(sink, held, after)
}

/// The lines behind the first.
fn put_body<S: Sign, W: Sink>(
    sink: &mut W,
    held: &mut AnswerBuffer,
    sides: &Sides,
) -> Result<(), SinkFailed>
    ensures bytes { Puts (W.contents sink.old) held.old (W.contents sink.new) held.new (behind S.text (before_text sides.now.before ++ (tried_texts 1 sides.now.replies ++ after_text sides.now.after))) result }
    ensures utf8 { OnOk result (IsUtf8 (behind S.text (before_text sides.now.before ++ (tried_texts 1 sides.now.replies ++ after_text sides.now.after)))) }
    ensures failures { W.failures sink.new ≡ W.failures sink.old + sink_faults result }
    ensures flushes { W.flushes sink.new ≡ W.flushes sink.old }
{
    put_before_line::<S, W>(sink, held, sides.before)?;
    put_tail::<S, W>(sink, held, sides.replies.as_slice(), sides.after)
}

/// Both sides, and what each tried event answers. The first sign has been put.
pub fn put_sides<S: Sign, W: Sink>(
    sink: &mut W,
    held: &mut AnswerBuffer,
    sides: &Sides,
) -> Result<(), SinkFailed>
    ensures bytes { Puts (W.contents sink.old) held.old (W.contents sink.new) held.new (begun S.text (sides_text sides.now)) result }
    ensures utf8 { OnOk result (IsUtf8 (begun S.text (sides_text sides.now))) }
    ensures failures { W.failures sink.new ≡ W.failures sink.old + sink_faults result }
    ensures flushes { W.flushes sink.new ≡ W.flushes sink.old }
{
    put_sides_head(sink, held, accepted(sides.replies.as_slice()), sides.given)?;
    put_body::<S, W>(sink, held, sides)
}
