//! What samples and new targets answer.

ghost use Rattle.std.specs.Prelude.{◌≡◌, ◌+◌, OnOk, IsUtf8};
ghost use Rattle.esx_writing.specs.Writing.{Puts, sink_faults};
ghost use Rattle.esx_replies.specs.Texts.{opened_text, rebalanced_text};

use esx_types::{Sink, SinkFailed};
use esx_writing::{AnswerBuffer, line, put_line};

/// A period is open.
pub fn put_opened<W: Sink>(
    sink: &mut W,
    held: &mut AnswerBuffer,
    length: u32,
    pages: u32,
) -> Result<(), SinkFailed>
    ensures bytes { Puts (W.contents sink.old) held.old (W.contents sink.new) held.new (opened_text length pages) result }
    ensures utf8 { OnOk result (IsUtf8 (opened_text length pages)) }
    ensures failures { W.failures sink.new ≡ W.failures sink.old + sink_faults result }
    ensures flushes { W.flushes sink.new ≡ W.flushes sink.old }
{
    put_line(
        sink,
        held,
        &line![
            "ok period ",
            u64::from(length),
            " pages ",
            u64::from(pages),
            "\n",
        ],
    )
}

/// How many pages were needed, and how many were revoked.
pub fn put_rebalanced<W: Sink>(
    sink: &mut W,
    held: &mut AnswerBuffer,
    need: u32,
    revoked: u32,
) -> Result<(), SinkFailed>
    ensures bytes { Puts (W.contents sink.old) held.old (W.contents sink.new) held.new (rebalanced_text need revoked) result }
    ensures utf8 { OnOk result (IsUtf8 (rebalanced_text need revoked)) }
    ensures failures { W.failures sink.new ≡ W.failures sink.old + sink_faults result }
    ensures flushes { W.flushes sink.new ≡ W.flushes sink.old }
{
    put_line(
        sink,
        held,
        &line![
            "ok need ",
            u64::from(need),
            " revoked ",
            u64::from(revoked),
            "\n",
        ],
    )
}
