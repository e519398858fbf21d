//! What a look at a page's content answers.

ghost use Rattle.std.specs.Prelude.{◌≡◌, ◌+◌, OnOk, IsUtf8};
ghost use Rattle.esx_writing.specs.Writing.{Puts, sink_faults};
ghost use Rattle.esx_replies.specs.Texts.{found_shared_text, looked_text};

use esx_events::Scanned;
use esx_types::{Sink, SinkFailed};
use esx_writing::{AnswerBuffer, line, put_line};

/// The frame that is shared now, and how many pages it has.
pub fn put_found_shared<W: Sink>(
    sink: &mut W,
    held: &mut AnswerBuffer,
    frame: u32,
    count: u32,
) -> Result<(), SinkFailed>
    ensures bytes { Puts (W.contents sink.old) held.old (W.contents sink.new) held.new (found_shared_text frame count) result }
    ensures utf8 { OnOk result (IsUtf8 (found_shared_text frame count)) }
    ensures failures { W.failures sink.new ≡ W.failures sink.old + sink_faults result }
    ensures flushes { W.flushes sink.new ≡ W.flushes sink.old }
{
    put_line(
        sink,
        held,
        &line![
            "ok shared frame ",
            u64::from(frame),
            " count ",
            u64::from(count),
            "\n",
        ],
    )
}

/// What the look came to.
pub fn put_looked<W: Sink>(
    sink: &mut W,
    held: &mut AnswerBuffer,
    scanned: Scanned,
) -> Result<(), SinkFailed>
    ensures bytes { Puts (W.contents sink.old) held.old (W.contents sink.new) held.new (looked_text scanned) result }
    ensures utf8 { OnOk result (IsUtf8 (looked_text scanned)) }
    ensures failures { W.failures sink.new ≡ W.failures sink.old + sink_faults result }
    ensures flushes { W.flushes sink.new ≡ W.flushes sink.old }
{
    match scanned {
        Scanned::Hinted => put_line(sink, held, &"ok hinted\n"),
        Scanned::Shared { frame, count } => put_found_shared(sink, held, frame, count),
        Scanned::Stale => put_line(sink, held, &"ok stale\n"),
        Scanned::Clash => put_line(sink, held, &"ok clash\n"),
        Scanned::Already => put_line(sink, held, &"ok already\n"),
    }
}
