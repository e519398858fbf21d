//! What reads answer.

ghost use Rattle.std.specs.Prelude.{◌≡◌, ◌+◌, OnOk, IsUtf8};
ghost use Rattle.esx_writing.specs.Writing.{Puts, sink_faults};
ghost use Rattle.esx_replies.specs.Texts.{bytes_text};

use esx_types::{Sink, SinkFailed, SmallBytes};
use esx_writing::{AnswerBuffer, Hex, line, put_line};

/// The bytes that were read.
pub fn put_bytes<W: Sink>(
    sink: &mut W,
    held: &mut AnswerBuffer,
    bytes: &SmallBytes,
) -> Result<(), SinkFailed>
    ensures bytes { Puts (W.contents sink.old) held.old (W.contents sink.new) held.new (bytes_text bytes.now) result }
    ensures utf8 { OnOk result (IsUtf8 (bytes_text bytes.now)) }
    ensures failures { W.failures sink.new ≡ W.failures sink.old + sink_faults result }
    ensures flushes { W.flushes sink.new ≡ W.flushes sink.old }
{
    put_line(
        sink,
        held,
        &line![
            "ok ",
            Hex {
                bytes: bytes.as_slice()
            },
            "\n"
        ],
    )
}
