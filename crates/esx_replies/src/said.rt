//! What is said to a call.

ghost use Rattle.std.specs.Prelude.{◌≡◌, ◌+◌, ◌≤◌, [], IfOk, OnOk, IsUtf8, string_bytes};
ghost use Rattle.esx_writing.specs.Writing.{Writes, Puts, sink_faults};
ghost use Rattle.esx_replies.specs.Signs.{behind, begun};
ghost use Rattle.esx_replies.specs.Replies.{said_text, reply_text};

use crate::answer::put_answer;
use crate::marks::put_marks;
use crate::moves::{put_marked, put_pruned, put_stand};
use crate::questions::{put_activity, put_help, put_page, put_sum};
use crate::refusals::put_refusal;
use crate::sides::put_sides;
use crate::sign::{NoSign, Sign};
use crate::table::put_table;
use esx_events::{Reply, Said};
use esx_types::{MemorySink, Sink, SinkFailed};
use esx_writing::{AnswerBuffer, write_held};
use std::alloc::{AllocError, Global};
use std::marker::Brand;
use std::sync::ledger::{Blank, Ledger};

/// What is said, where its first sign has been put and the cursor made so many jumps.
fn put_said<S: Sign, W: Sink>(
    sink: &mut W,
    held: &mut AnswerBuffer,
    said: &Said,
    jumps: u64,
) -> Result<(), SinkFailed>
    ensures bytes { Puts (W.contents sink.old) held.old (W.contents sink.new) held.new (begun S.text (said_text said.now jumps)) result }
    ensures utf8 { OnOk result (IsUtf8 (begun S.text (said_text said.now jumps))) }
    ensures failures { W.failures sink.new ≡ W.failures sink.old + sink_faults result }
    ensures flushes { W.flushes sink.new ≡ W.flushes sink.old }
{
    match said {
        Said::Done { answer } => put_answer(sink, held, answer),
        Said::Refused { refusal } => put_refusal(sink, held, *refusal),
        Said::Stand { stand } => put_stand(sink, held, *stand, jumps),
        Said::Marked { name, node } => put_marked(sink, held, name, *node),
        Said::Pruned { count } => put_pruned(sink, held, *count),
        Said::Sides { sides } => put_sides::<S, W>(sink, held, sides.get()),
        Said::Sum { sum } => put_sum(sink, held, *sum),
        Said::Table { rows, sum } => {
            put_table::<S, W>(sink, held, rows.get().as_slice(), *sum.get())
        }
        Said::Activity { activity } => put_activity(sink, held, *activity.get()),
        Said::Page { state } => put_page(sink, held, *state),
        Said::Help { help } => put_help(sink, held, *help),
        Said::Marks { marks } => put_marks::<S, W>(sink, held, marks.get().as_slice()),
    }
}

/// Puts a reply, each of its lines behind a sign.
#[inline(always)]
pub fn put_reply<S: Sign, W: Sink>(
    sink: &mut W,
    held: &mut AnswerBuffer,
    reply: &Reply,
) -> Result<(), SinkFailed>
    ensures bytes { Puts (W.contents sink.old) held.old (W.contents sink.new) held.new (behind S.text (reply_text reply.now)) result }
    ensures utf8 { OnOk result (IsUtf8 (behind S.text (reply_text reply.now))) }
    ensures failures { W.failures sink.new ≡ W.failures sink.old + sink_faults result }
    ensures flushes { W.flushes sink.new ≡ W.flushes sink.old }
{
    S::put(sink, held)?;
    put_said::<S, W>(sink, held, &reply.said, reply.jumps)
}

/// Writes a reply as its lines, over an empty buffer.
pub fn write_reply<W: Sink>(
    sink: &mut W,
    held: &mut AnswerBuffer,
    reply: &Reply,
) -> Result<(), SinkFailed>
    requires { held.old ≡ [] }
    ensures bytes { Writes (W.contents sink.old) (W.contents sink.new) (reply_text reply.now) result }
    ensures utf8 { OnOk result (IsUtf8 (reply_text reply.now)) }
    ensures empty { held.new ≡ [] }
    ensures failures { W.failures sink.new ≡ W.failures sink.old + sink_faults result }
    ensures flushes { W.flushes sink.new ≡ W.flushes sink.old }
{
    put_reply::<NoSign, W>(sink, held, reply)?;
    write_held(sink, held)
}

/// The lines of a reply, by a count of the writes.
fn reply_bytes<L: Ledger>(alloc: Global, reply: &Reply, blank: Blank) -> Result<Vec<u8>, AllocError>
    requires name { blank.name ≡ L.name }
    requires parts { blank.parts ≡ L.parts }
    requires four { 4 ≤ blank.parts }
    ensures bytes { IfOk result (λ bytes. bytes.items ≡ reply_text reply.now) }
    ensures utf8 { IfOk result (λ bytes. IsUtf8 bytes.items) }
{
    let mut held = AnswerBuffer::new(alloc)?;
    let mut sink = MemorySink::<L>::new(Vec::new(alloc), blank);
    match write_reply(&mut sink, &mut held, reply) {
        Ok(()) => Ok(sink.into_bytes()),
        Err(SinkFailed) => Err(AllocError),
    }
}

/// The lines of a reply, each with its line feed.
pub fn print_reply(alloc: Global, reply: &Reply) -> Result<String, AllocError>
    ensures { IfOk result (λ text. string_bytes text ≡ reply_text reply.now) }
{
    let bytes = reply_bytes::<Brand>(alloc, reply, Blank::new(4))?;
    match String::from_utf8(bytes) {
        Ok(text) => Ok(text),
        Err(_) => unreachable!(),
    }
}
