//! What moves and marks answer.

ghost use Rattle.std.specs.Prelude.{◌≡◌, ◌+◌, OnOk, IsUtf8};
ghost use Rattle.esx_events.specs.Names.{IsName};
ghost use Rattle.esx_writing.specs.Writing.{Puts, sink_faults};
ghost use Rattle.esx_replies.specs.Texts.{stand_text, marked_text, pruned_text};

use esx_events::{Name, Stand};
use esx_types::{Sink, SinkFailed};
use esx_writing::{AnswerBuffer, line, put_line};

/// Where the cursor is, and how many jumps it has made.
pub fn put_stand<W: Sink>(
    sink: &mut W,
    held: &mut AnswerBuffer,
    stand: Stand,
    jumps: u64,
) -> Result<(), SinkFailed>
    ensures bytes { Puts (W.contents sink.old) held.old (W.contents sink.new) held.new (stand_text stand jumps) result }
    ensures utf8 { OnOk result (IsUtf8 (stand_text stand jumps)) }
    ensures failures { W.failures sink.new ≡ W.failures sink.old + sink_faults result }
    ensures flushes { W.flushes sink.new ≡ W.flushes sink.old }
{
    put_line(
        sink,
        held,
        &line![
            "at ",
            u64::from(stand.node),
            " depth ",
            u64::from(stand.depth),
            " jumps ",
            jumps,
            "\n",
        ],
    )
}

/// The node that has a name now.
pub fn put_marked<W: Sink>(
    sink: &mut W,
    held: &mut AnswerBuffer,
    name: &Name,
    node: u32,
) -> Result<(), SinkFailed>
    ensures named { IsName name.now }
    ensures bytes { Puts (W.contents sink.old) held.old (W.contents sink.new) held.new (marked_text name.now node) result }
    ensures utf8 { OnOk result (IsUtf8 (marked_text name.now node)) }
    ensures failures { W.failures sink.new ≡ W.failures sink.old + sink_faults result }
    ensures flushes { W.flushes sink.new ≡ W.flushes sink.old }
{
    put_line(
        sink,
        held,
        &line!["ok mark ", name.as_str(), " at ", u64::from(node), "\n"],
    )
}

/// How many nodes are gone.
pub fn put_pruned<W: Sink>(
    sink: &mut W,
    held: &mut AnswerBuffer,
    count: u32,
) -> Result<(), SinkFailed>
    ensures bytes { Puts (W.contents sink.old) held.old (W.contents sink.new) held.new (pruned_text count) result }
    ensures utf8 { OnOk result (IsUtf8 (pruned_text count)) }
    ensures failures { W.failures sink.new ≡ W.failures sink.old + sink_faults result }
    ensures flushes { W.flushes sink.new ≡ W.flushes sink.old }
{
    put_line(sink, held, &line!["ok pruned ", u64::from(count), "\n"])
}
