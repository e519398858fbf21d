//! What the coming of a virtual machine answers.

ghost use Rattle.std.specs.Prelude.{◌≡◌, ◌+◌, OnOk, IsUtf8};
ghost use Rattle.esx_writing.specs.Writing.{Puts, sink_faults};
ghost use Rattle.esx_replies.specs.Texts.{admitted_text, started_text};

use crate::names::running_name;
use esx_events::Reserves;
use esx_types::{Sink, SinkFailed};
use esx_writing::{AnswerBuffer, line, put_line};

/// Frames and slots that are reserved, of all.
pub fn put_admitted<W: Sink>(
    sink: &mut W,
    held: &mut AnswerBuffer,
    reserves: Reserves,
) -> Result<(), SinkFailed>
    ensures bytes { Puts (W.contents sink.old) held.old (W.contents sink.new) held.new (admitted_text reserves) result }
    ensures utf8 { OnOk result (IsUtf8 (admitted_text reserves)) }
    ensures failures { W.failures sink.new ≡ W.failures sink.old + sink_faults result }
    ensures flushes { W.flushes sink.new ≡ W.flushes sink.old }
{
    put_line(
        sink,
        held,
        &line![
            "ok memory ",
            u64::from(reserves.memory),
            "/",
            u64::from(reserves.frames),
            " swap ",
            u64::from(reserves.swap),
            "/",
            u64::from(reserves.slots),
            "\n",
        ],
    )
}

/// The frame that was taken, and how many are held of how many.
pub fn put_started<W: Sink>(
    sink: &mut W,
    held: &mut AnswerBuffer,
    frame: u32,
    taken: u32,
    overhead: u32,
    running: bool,
) -> Result<(), SinkFailed>
    ensures bytes { Puts (W.contents sink.old) held.old (W.contents sink.new) held.new (started_text frame taken overhead running) result }
    ensures utf8 { OnOk result (IsUtf8 (started_text frame taken overhead running)) }
    ensures failures { W.failures sink.new ≡ W.failures sink.old + sink_faults result }
    ensures flushes { W.flushes sink.new ≡ W.flushes sink.old }
{
    put_line(
        sink,
        held,
        &line![
            "ok frame ",
            u64::from(frame),
            " overhead ",
            u64::from(taken),
            "/",
            u64::from(overhead),
            " ",
            running_name(running),
            "\n",
        ],
    )
}
