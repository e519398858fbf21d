//! What paging answers.

ghost use Rattle.std.specs.Prelude.{◌≡◌, ◌+◌, OnOk, IsUtf8};
ghost use Rattle.esx_writing.specs.Writing.{Puts, sink_faults};
ghost use Rattle.esx_replies.specs.Texts.{paged_out_text, shared_out_text, replaced_text};

use esx_types::{Sink, SinkFailed};
use esx_writing::{AnswerBuffer, line, put_line};

/// The page that went out, and its slot.
pub fn put_paged_out<W: Sink>(
    sink: &mut W,
    held: &mut AnswerBuffer,
    page: u32,
    slot: u32,
) -> Result<(), SinkFailed>
    ensures bytes { Puts (W.contents sink.old) held.old (W.contents sink.new) held.new (paged_out_text page slot) result }
    ensures utf8 { OnOk result (IsUtf8 (paged_out_text page slot)) }
    ensures failures { W.failures sink.new ≡ W.failures sink.old + sink_faults result }
    ensures flushes { W.flushes sink.new ≡ W.flushes sink.old }
{
    put_line(
        sink,
        held,
        &line!["ok out ", u64::from(page), " slot ", u64::from(slot), "\n"],
    )
}

/// The page that was shared in place of going out, and its frame.
pub fn put_shared_out<W: Sink>(
    sink: &mut W,
    held: &mut AnswerBuffer,
    page: u32,
    frame: u32,
) -> Result<(), SinkFailed>
    ensures bytes { Puts (W.contents sink.old) held.old (W.contents sink.new) held.new (shared_out_text page frame) result }
    ensures utf8 { OnOk result (IsUtf8 (shared_out_text page frame)) }
    ensures failures { W.failures sink.new ≡ W.failures sink.old + sink_faults result }
    ensures flushes { W.flushes sink.new ≡ W.flushes sink.old }
{
    put_line(
        sink,
        held,
        &line![
            "ok shared ",
            u64::from(page),
            " frame ",
            u64::from(frame),
            "\n",
        ],
    )
}

/// The page that went out, its slot, and the frame that it left.
pub fn put_replaced<W: Sink>(
    sink: &mut W,
    held: &mut AnswerBuffer,
    page: u32,
    slot: u32,
    frame: u32,
) -> Result<(), SinkFailed>
    ensures bytes { Puts (W.contents sink.old) held.old (W.contents sink.new) held.new (replaced_text page slot frame) result }
    ensures utf8 { OnOk result (IsUtf8 (replaced_text page slot frame)) }
    ensures failures { W.failures sink.new ≡ W.failures sink.old + sink_faults result }
    ensures flushes { W.flushes sink.new ≡ W.flushes sink.old }
{
    put_line(
        sink,
        held,
        &line![
            "ok out ",
            u64::from(page),
            " slot ",
            u64::from(slot),
            " frame ",
            u64::from(frame),
            "\n",
        ],
    )
}
