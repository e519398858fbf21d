//! What the balloon's events answer.

ghost use Rattle.std.specs.Prelude.{◌≡◌, ◌+◌, OnOk, IsUtf8};
ghost use Rattle.esx_writing.specs.Writing.{Puts, sink_faults};
ghost use Rattle.esx_replies.specs.Texts.{goal_text, reset_text, lent_text, taken_back_text};

use esx_types::{Sink, SinkFailed};
use esx_writing::{AnswerBuffer, line, put_line};

/// How many pages are to be lent, how many are, and in which epoch.
pub fn put_goal<W: Sink>(
    sink: &mut W,
    held: &mut AnswerBuffer,
    goal: u32,
    lent: u32,
    epoch: u32,
) -> Result<(), SinkFailed>
    ensures bytes { Puts (W.contents sink.old) held.old (W.contents sink.new) held.new (goal_text goal lent epoch) result }
    ensures utf8 { OnOk result (IsUtf8 (goal_text goal lent epoch)) }
    ensures failures { W.failures sink.new ≡ W.failures sink.old + sink_faults result }
    ensures flushes { W.flushes sink.new ≡ W.flushes sink.old }
{
    put_line(
        sink,
        held,
        &line![
            "ok goal ",
            u64::from(goal),
            " lent ",
            u64::from(lent),
            " epoch ",
            u64::from(epoch),
            "\n",
        ],
    )
}

/// The balloon was reset.
pub fn put_reset<W: Sink>(
    sink: &mut W,
    held: &mut AnswerBuffer,
    epoch: u32,
) -> Result<(), SinkFailed>
    ensures bytes { Puts (W.contents sink.old) held.old (W.contents sink.new) held.new (reset_text epoch) result }
    ensures utf8 { OnOk result (IsUtf8 (reset_text epoch)) }
    ensures failures { W.failures sink.new ≡ W.failures sink.old + sink_faults result }
    ensures flushes { W.flushes sink.new ≡ W.flushes sink.old }
{
    put_line(sink, held, &line!["reset epoch ", u64::from(epoch), "\n"])
}

/// How many pages are lent now, of how many.
pub fn put_lent<W: Sink>(
    sink: &mut W,
    held: &mut AnswerBuffer,
    lent: u32,
    goal: u32,
) -> Result<(), SinkFailed>
    ensures bytes { Puts (W.contents sink.old) held.old (W.contents sink.new) held.new (lent_text lent goal) result }
    ensures utf8 { OnOk result (IsUtf8 (lent_text lent goal)) }
    ensures failures { W.failures sink.new ≡ W.failures sink.old + sink_faults result }
    ensures flushes { W.flushes sink.new ≡ W.flushes sink.old }
{
    put_line(
        sink,
        held,
        &line![
            "ok lent ",
            u64::from(lent),
            " goal ",
            u64::from(goal),
            "\n",
        ],
    )
}

/// How many pages are lent still.
pub fn put_taken_back<W: Sink>(
    sink: &mut W,
    held: &mut AnswerBuffer,
    lent: u32,
) -> Result<(), SinkFailed>
    ensures bytes { Puts (W.contents sink.old) held.old (W.contents sink.new) held.new (taken_back_text lent) result }
    ensures utf8 { OnOk result (IsUtf8 (taken_back_text lent)) }
    ensures failures { W.failures sink.new ≡ W.failures sink.old + sink_faults result }
    ensures flushes { W.flushes sink.new ≡ W.flushes sink.old }
{
    put_line(sink, held, &line!["ok lent ", u64::from(lent), "\n"])
}
