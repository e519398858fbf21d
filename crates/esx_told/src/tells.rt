//! Logs that are told as texts.

ghost use Rattle.std.specs.Prelude.{◌≡◌, ◌+◌, ◌++◌, ◌∷◌, [], List, map};
ghost use Rattle.esx_events.specs.declared.call.Call.{Call};
ghost use Rattle.esx_events.specs.declared.call.Line.{Line};
ghost use Rattle.esx_writing.specs.Writing.{Writes, sink_faults};
ghost use Rattle.esx_words.specs.Commands.{spelling};
ghost use Rattle.esx_replies.specs.Replies.{reply_text};
ghost use Rattle.esx_session.specs.Sessions.{logged, session_text};

mod told;

use crate::latest::Latest;
use crate::tells::told::write_told;
use crate::text_log::TextLog;
use esx_console::Log;
use esx_events::Line;
use esx_replies::write_reply;
use esx_session::write_session;
use esx_types::{Config, Sink, SinkFailed};
use esx_writing::{AnswerBuffer, put_all};

/// A log that can be told as text.
pub trait Tells: Log {
    /// Writes the reply of the last line, over an empty buffer.
    fn tell_reply<W: Sink>(&self, sink: &mut W, held: &mut AnswerBuffer) -> Result<(), SinkFailed>
        requires empty { held.old ≡ [] }
        requires some { Self.lines self.now ≡ [] → ⊥ }
        ensures bytes { (before : List Line) (line : Line) → Self.lines self.now ≡ before ++ line ∷ [] → Writes (W.contents sink.old) (W.contents sink.new) (reply_text line.reply) result }
        ensures empty { held.new ≡ [] }
        ensures failures { W.failures sink.new ≡ W.failures sink.old + sink_faults result }
        ensures flushes { W.flushes sink.new ≡ W.flushes sink.old };

    /// Writes the session of a site and of the lines, over an empty buffer.
    fn tell_session<W: Sink>(
        &self,
        sink: &mut W,
        held: &mut AnswerBuffer,
        site: &Config,
    ) -> Result<(), SinkFailed>
        requires { held.old ≡ [] }
        ensures bytes { Writes (W.contents sink.old) (W.contents sink.new) (session_text site.now (map logged (Self.lines self.now))) result }
        ensures empty { held.new ≡ [] }
        ensures failures { W.failures sink.new ≡ W.failures sink.old + sink_faults result }
        ensures flushes { W.flushes sink.new ≡ W.flushes sink.old };

    /// The spelling of a call may be handed in with its line.
    ghost spells_spelling: { (call : Call) → Self.spells (spelling call) call };
}

impl Tells for Vec<Line> {
    fn tell_reply<W: Sink>(&self, sink: &mut W, held: &mut AnswerBuffer) -> Result<(), SinkFailed> {
        match self.last() {
            Some(line) => write_reply(sink, held, &line.reply),
            None => unreachable!(),
        }
    }

    fn tell_session<W: Sink>(
        &self,
        sink: &mut W,
        held: &mut AnswerBuffer,
        site: &Config,
    ) -> Result<(), SinkFailed> {
        write_session(sink, held, site, self.as_slice())
    }

    ghost spells_spelling = { λ _. tt };
}

impl Tells for TextLog {
    fn tell_reply<W: Sink>(&self, sink: &mut W, held: &mut AnswerBuffer) -> Result<(), SinkFailed> {
        match self.latest() {
            Latest::Said { at } => put_all(sink, &self.text()[*at..]),
            Latest::Told { line } | Latest::Kept { line } => write_reply(sink, held, &line.reply),
            Latest::Nothing => unreachable!(),
        }
    }

    fn tell_session<W: Sink>(
        &self,
        sink: &mut W,
        held: &mut AnswerBuffer,
        site: &Config,
    ) -> Result<(), SinkFailed> {
        write_told(sink, held, site, self)
    }

    ghost use Rattle.std.proofs.Common.{inr, refl};

    ghost spells_spelling = { λ _. inr refl };
}
