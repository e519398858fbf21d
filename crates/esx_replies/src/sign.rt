//! Signs before the lines of a reply. A function that puts several lines has one as a type parameter, so that
//! a reply that is put as it is costs nothing more.

ghost use Rattle.std.specs.Prelude.{◌≡◌, ◌+◌, ℕ, List, [], OnOk, IsUtf8};
ghost use Rattle.esx_writing.specs.Writing.{Puts, sink_faults};

use esx_types::{Sink, SinkFailed};
use esx_writing::AnswerBuffer;

/// What stands before each line of a reply.
pub trait Sign {
    ghost text: { List ℕ };

    /// Puts it.
    fn put<W: Sink>(sink: &mut W, held: &mut AnswerBuffer) -> Result<(), SinkFailed>
        ensures bytes { Puts (W.contents sink.old) held.old (W.contents sink.new) held.new text result }
        ensures utf8 { OnOk result (IsUtf8 text) }
        ensures failures { W.failures sink.new ≡ W.failures sink.old + sink_faults result }
        ensures flushes { W.flushes sink.new ≡ W.flushes sink.old };
}

/// None: a reply as it is.
pub struct NoSign;

impl Sign for NoSign {
    ghost text = { [] };

    #[inline(always)]
    fn put<W: Sink>(_sink: &mut W, _held: &mut AnswerBuffer) -> Result<(), SinkFailed> {
        Ok(())
    }
}
