//! What the end of a virtual machine answers.

ghost use Rattle.std.specs.Prelude.{◌≡◌, ◌+◌, OnOk, IsUtf8};
ghost use Rattle.esx_writing.specs.Writing.{Puts, sink_faults};
ghost use Rattle.esx_replies.specs.Texts.{given_back_text};

use esx_types::{Sink, SinkFailed};
use esx_writing::{AnswerBuffer, line, put_line};

/// How many overhead frames are still held.
pub fn put_given_back<W: Sink>(
    sink: &mut W,
    held: &mut AnswerBuffer,
    kept: u32,
) -> Result<(), SinkFailed>
    ensures bytes { Puts (W.contents sink.old) held.old (W.contents sink.new) held.new (given_back_text kept) result }
    ensures utf8 { OnOk result (IsUtf8 (given_back_text kept)) }
    ensures failures { W.failures sink.new ≡ W.failures sink.old + sink_faults result }
    ensures flushes { W.flushes sink.new ≡ W.flushes sink.old }
{
    put_line(sink, held, &line!["ok overhead ", u64::from(kept), "\n"])
}
