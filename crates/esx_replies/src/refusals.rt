//! Why a call was not accepted.

ghost use Rattle.std.specs.Prelude.{◌≡◌, ◌+◌, OnOk, IsUtf8};
ghost use Rattle.esx_writing.specs.Writing.{Puts, sink_faults};
ghost use Rattle.esx_replies.specs.Texts.{refusal_text, refusal_ending};

use esx_events::Refusal;
use esx_types::{Level, Sink, SinkFailed};
use esx_writing::{AnswerBuffer, line, put_line};

/// The end of a refusal's line.
fn ending(refusal: Refusal) -> &'static str
    ensures { result.now ≡ refusal_ending refusal }
{
    match refusal {
        Refusal::NoVm => "\n",
        Refusal::VmThere => "\n",
        Refusal::BadSpec => "\n",
        Refusal::NoMemoryReserve => "\n",
        Refusal::NoSwapReserve => "\n",
        Refusal::NotRunning => "\n",
        Refusal::OutOfRange => "\n",
        Refusal::Held => "\n",
        Refusal::Short => "\n",
        Refusal::OverGoal => "\n",
        Refusal::NotLent => "\n",
        Refusal::LentAlready => "\n",
        Refusal::NotNow { level } => match level {
            Level::High => " high\n",
            Level::Soft => " soft\n",
            Level::Hard => " hard\n",
            Level::Low => " low\n",
        },
        Refusal::AtTarget => "\n",
        Refusal::NotResident => "\n",
        Refusal::BadWords => "\n",
        Refusal::NotNeeded => "\n",
        Refusal::PagesLeft => "\n",
        Refusal::NothingToUndo => "\n",
        Refusal::NothingToRedo => "\n",
        Refusal::NoSuchNode => "\n",
        Refusal::NameTaken => "\n",
        Refusal::NoSuchName => "\n",
        Refusal::OnPath => "\n",
        Refusal::Full => "\n",
        Refusal::OutOfMemory => "\n",
        Refusal::SampleOpen => "\n",
    }
}

/// The number, the name, and the level where it has one.
pub fn put_refusal<W: Sink>(
    sink: &mut W,
    held: &mut AnswerBuffer,
    refusal: Refusal,
) -> Result<(), SinkFailed>
    ensures bytes { Puts (W.contents sink.old) held.old (W.contents sink.new) held.new (refusal_text refusal) result }
    ensures utf8 { OnOk result (IsUtf8 (refusal_text refusal)) }
    ensures failures { W.failures sink.new ≡ W.failures sink.old + sink_faults result }
    ensures flushes { W.flushes sink.new ≡ W.flushes sink.old }
{
    put_line(
        sink,
        held,
        &line![
            "no ",
            u64::from(refusal.number()),
            " ",
            refusal.name(),
            ending(refusal),
        ],
    )
}
