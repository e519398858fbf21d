//! What questions answer.

ghost use Rattle.std.specs.Prelude.{◌≡◌, ◌+◌, OnOk, IsUtf8};
ghost use Rattle.esx_writing.specs.Writing.{Puts, sink_faults};
ghost use Rattle.esx_replies.specs.Texts.{sum_text, activity_text, private_text, hinted_text, shared_text, out_text, page_out_text, page_text, help_text};

use crate::names::level_name;
use esx_events::{Activity, Help, PageState, Sum};
use esx_types::{Sink, SinkFailed, VmId};
use esx_writing::{AnswerBuffer, line, put_line};

/// How many frames are of each kind, and the level.
pub fn put_sum<W: Sink>(sink: &mut W, held: &mut AnswerBuffer, sum: Sum) -> Result<(), SinkFailed>
    ensures bytes { Puts (W.contents sink.old) held.old (W.contents sink.new) held.new (sum_text sum) result }
    ensures utf8 { OnOk result (IsUtf8 (sum_text sum)) }
    ensures failures { W.failures sink.new ≡ W.failures sink.old + sink_faults result }
    ensures flushes { W.flushes sink.new ≡ W.flushes sink.old }
{
    put_line(
        sink,
        held,
        &line![
            "overhead ",
            u64::from(sum.overhead),
            " private ",
            u64::from(sum.private),
            " shared ",
            u64::from(sum.shared),
            " free ",
            u64::from(sum.free),
            " ",
            level_name(sum.level),
            "\n",
        ],
    )
}

/// Averages, and what an open period has done.
pub fn put_activity<W: Sink>(
    sink: &mut W,
    held: &mut AnswerBuffer,
    a: Activity,
) -> Result<(), SinkFailed>
    ensures bytes { Puts (W.contents sink.old) held.old (W.contents sink.new) held.new (activity_text a) result }
    ensures utf8 { OnOk result (IsUtf8 (activity_text a)) }
    ensures failures { W.failures sink.new ≡ W.failures sink.old + sink_faults result }
    ensures flushes { W.flushes sink.new ≡ W.flushes sink.old }
{
    put_line(
        sink,
        held,
        &line![
            "slow ",
            u64::from(a.slow),
            " fast ",
            u64::from(a.fast),
            " active ",
            u64::from(a.active),
            " period ",
            u64::from(a.done),
            "/",
            u64::from(a.length),
            " touched ",
            u64::from(a.touched),
            "/",
            u64::from(a.pages),
            "\n",
        ],
    )
}

/// A page alone in its frame.
pub fn put_private<W: Sink>(
    sink: &mut W,
    held: &mut AnswerBuffer,
    frame: u32,
) -> Result<(), SinkFailed>
    ensures bytes { Puts (W.contents sink.old) held.old (W.contents sink.new) held.new (private_text frame) result }
    ensures utf8 { OnOk result (IsUtf8 (private_text frame)) }
    ensures failures { W.failures sink.new ≡ W.failures sink.old + sink_faults result }
    ensures flushes { W.flushes sink.new ≡ W.flushes sink.old }
{
    put_line(
        sink,
        held,
        &line!["here frame ", u64::from(frame), " private\n"],
    )
}

/// The same, remembered as a hint.
pub fn put_hinted<W: Sink>(
    sink: &mut W,
    held: &mut AnswerBuffer,
    frame: u32,
) -> Result<(), SinkFailed>
    ensures bytes { Puts (W.contents sink.old) held.old (W.contents sink.new) held.new (hinted_text frame) result }
    ensures utf8 { OnOk result (IsUtf8 (hinted_text frame)) }
    ensures failures { W.failures sink.new ≡ W.failures sink.old + sink_faults result }
    ensures flushes { W.flushes sink.new ≡ W.flushes sink.old }
{
    put_line(
        sink,
        held,
        &line!["here frame ", u64::from(frame), " private hint\n"],
    )
}

/// A shared page.
pub fn put_shared<W: Sink>(
    sink: &mut W,
    held: &mut AnswerBuffer,
    frame: u32,
    count: u32,
) -> Result<(), SinkFailed>
    ensures bytes { Puts (W.contents sink.old) held.old (W.contents sink.new) held.new (shared_text frame count) result }
    ensures utf8 { OnOk result (IsUtf8 (shared_text frame count)) }
    ensures failures { W.failures sink.new ≡ W.failures sink.old + sink_faults result }
    ensures flushes { W.flushes sink.new ≡ W.flushes sink.old }
{
    put_line(
        sink,
        held,
        &line![
            "here frame ",
            u64::from(frame),
            " shared ",
            u64::from(count),
            "\n",
        ],
    )
}

/// A page that is out.
pub fn put_out<W: Sink>(sink: &mut W, held: &mut AnswerBuffer, slot: u32) -> Result<(), SinkFailed>
    ensures bytes { Puts (W.contents sink.old) held.old (W.contents sink.new) held.new (out_text slot) result }
    ensures utf8 { OnOk result (IsUtf8 (out_text slot)) }
    ensures failures { W.failures sink.new ≡ W.failures sink.old + sink_faults result }
    ensures flushes { W.flushes sink.new ≡ W.flushes sink.old }
{
    put_line(sink, held, &line!["out slot ", u64::from(slot), "\n"])
}

/// What is to be paged out.
pub fn put_page_out<W: Sink>(
    sink: &mut W,
    held: &mut AnswerBuffer,
    vm: VmId,
) -> Result<(), SinkFailed>
    ensures bytes { Puts (W.contents sink.old) held.old (W.contents sink.new) held.new (page_out_text vm) result }
    ensures utf8 { OnOk result (IsUtf8 (page_out_text vm)) }
    ensures failures { W.failures sink.new ≡ W.failures sink.old + sink_faults result }
    ensures flushes { W.flushes sink.new ≡ W.flushes sink.old }
{
    put_line(sink, held, &line!["swapout ", u64::from(vm.number()), "\n"])
}

/// Where a page is.
pub fn put_page<W: Sink>(
    sink: &mut W,
    held: &mut AnswerBuffer,
    state: PageState,
) -> Result<(), SinkFailed>
    ensures bytes { Puts (W.contents sink.old) held.old (W.contents sink.new) held.new (page_text state) result }
    ensures utf8 { OnOk result (IsUtf8 (page_text state)) }
    ensures failures { W.failures sink.new ≡ W.failures sink.old + sink_faults result }
    ensures flushes { W.flushes sink.new ≡ W.flushes sink.old }
{
    match state {
        PageState::Untouched => put_line(sink, held, &"untouched\n"),
        PageState::Private { frame } => put_private(sink, held, frame),
        PageState::Hinted { frame } => put_hinted(sink, held, frame),
        PageState::Shared { frame, count } => put_shared(sink, held, frame, count),
        PageState::Out { slot } => put_out(sink, held, slot),
        PageState::Lent => put_line(sink, held, &"lent\n"),
    }
}

/// What lets a write go on.
pub fn put_help<W: Sink>(
    sink: &mut W,
    held: &mut AnswerBuffer,
    help: Help,
) -> Result<(), SinkFailed>
    ensures bytes { Puts (W.contents sink.old) held.old (W.contents sink.new) held.new (help_text help) result }
    ensures utf8 { OnOk result (IsUtf8 (help_text help)) }
    ensures failures { W.failures sink.new ≡ W.failures sink.old + sink_faults result }
    ensures flushes { W.flushes sink.new ≡ W.flushes sink.old }
{
    match help {
        Help::Go => put_line(sink, held, &"go\n"),
        Help::SwapOut { vm } => put_page_out(sink, held, vm),
        Help::Rebalance => put_line(sink, held, &"rebalance\n"),
        Help::Replace => put_line(sink, held, &"replace\n"),
    }
}
