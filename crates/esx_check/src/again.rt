//! The console at which a session is gone through again.

ghost use Rattle.std.specs.Prelude.{◌≡◌, ◌+◌, ◌<◌, ◌≤◌, ◌^◌, ◌↔◌, [], Bool, IfOk, IfSome, IfNone, OnOk, OnErr, IsTrue};
ghost use Rattle.esx_types.specs.Ranges.{IsConfig};
ghost use Rattle.esx_model.specs.Console.{Session, history, next_reply, lined};
ghost use Rattle.esx_console.specs.Calls.{opened_session};
ghost use Rattle.esx_console.specs.Unlogged.{AnswersAs};
ghost use Rattle.esx_replies.specs.Replies.{reply_text};
ghost use Rattle.esx_check.specs.Gates.{turn_of};

use crate::comparing::has_text;
use crate::consoles::AnyConsole;
use esx_console::{Console, Unlogged};
use esx_door::Gate;
use esx_events::Reply;
use esx_session::Entry;
use esx_types::Config;
use esx_writing::AnswerBuffer;
use std::alloc::{AllocError, Global};

/// A console, and a buffer for the texts of its replies.
#[derive(Drop)]
pub struct Again<C = Unlogged> {
    pub console: C,
    pub held: AnswerBuffer,
}

impl Again {
    /// With no log, at a good site, which is refused for want of memory alone.
    pub fn open(alloc: Global, site: Config) -> Result<Again, AllocError>
        requires { IsConfig site }
        ensures answers { IfOk result (λ again. AnswersAs again.console (opened_session site)) }
        ensures none { IfOk result (λ again. again.console.jumps ≡ 0) }
        ensures empty { IfOk result (λ again. again.held ≡ []) }
    {
        let held = AnswerBuffer::new(alloc)?;
        match Unlogged::open(alloc, site) {
            Ok(console) => Ok(Again { console, held }),
            Err(_) => Err(AllocError),
        }
    }
}

impl Again<Console> {
    /// The same with a log.
    pub(crate) fn open_logged(alloc: Global, site: Config) -> Result<Again<Console>, AllocError>
        requires { IsConfig site }
        ensures opened { IfOk result (λ again. again.console ≡ opened_session site) }
        ensures empty { IfOk result (λ again. again.held ≡ []) }
    {
        let held = AnswerBuffer::new(alloc)?;
        match Console::open(alloc, site) {
            Ok(console) => Ok(Again { console, held }),
            Err(_) => Err(AllocError),
        }
    }
}

impl<C: AnyConsole> Again<C> {
    /// Passes the gate with the number of a call, makes the call again, and gives its reply where that is another than
    /// the one that stands with it.
    pub(crate) fn other_reply<G: Gate>(
        &mut self,
        gate: &mut G,
        number: u64,
        entry: &Entry,
    ) -> Result<Option<Reply>, AllocError>
        requires few { C.counted self.old.console < 2 ^ 63 }
        requires empty { self.old.held ≡ [] }
        ensures made { OnOk result ((s : Session) → C.answers_as self.old.console s → C.answers_as self.new.console (lined s entry.now.caller entry.now.call)) }
        ensures same { IfOk result (λ other. IfNone other ((s : Session) → C.answers_as self.old.console s → reply_text (next_reply s entry.now.call) ≡ entry.now.reply)) }
        ensures other { IfOk result (λ other. IfSome other (λ reply. (s : Session) → C.answers_as self.old.console s → reply ≡ next_reply s entry.now.call)) }
        ensures differs { IfOk result (λ other. IfSome other (λ reply. reply_text reply ≡ entry.now.reply → ⊥)) }
        ensures few { OnOk result (C.counted self.new.console ≤ C.counted self.old.console + 1) }
        ensures empty { IfOk result (λ other. IfNone other (self.new.held ≡ [])) }
        ensures gate { (answer : Bool) × G.passes gate.old (turn_of number) answer gate.new }
        ensures wants { (s : Session) → C.answers_as self.old.console s → OnErr result (C.may_want (history s) entry.now.call) }
    {
        gate.pass_through(u32::try_from(number).unwrap_or(u32::MAX));
        let reply = self.console.call_again(entry.caller, &entry.call)?;
        if has_text(&mut self.held, &reply, entry.reply.as_slice()) {
            Ok(None)
        } else {
            Ok(Some(reply))
        }
    }

    /// The same, and tells whether it has the reply that stands with it.
    pub(crate) fn has_same_reply<G: Gate>(
        &mut self,
        gate: &mut G,
        number: u64,
        entry: &Entry,
    ) -> Result<bool, AllocError>
        requires few { C.counted self.old.console < 2 ^ 63 }
        requires empty { self.old.held ≡ [] }
        ensures made { OnOk result ((s : Session) → C.answers_as self.old.console s → C.answers_as self.new.console (lined s entry.now.caller entry.now.call)) }
        ensures same { IfOk result (λ same. (s : Session) → C.answers_as self.old.console s → IsTrue same ↔ (reply_text (next_reply s entry.now.call) ≡ entry.now.reply)) }
        ensures few { OnOk result (C.counted self.new.console ≤ C.counted self.old.console + 1) }
        ensures empty { IfOk result (λ same. IsTrue same → self.new.held ≡ []) }
        ensures gate { (answer : Bool) × G.passes gate.old (turn_of number) answer gate.new }
        ensures wants { (s : Session) → C.answers_as self.old.console s → OnErr result (C.may_want (history s) entry.now.call) }
    {
        match self.other_reply(gate, number, entry)? {
            None => Ok(true),
            Some(_) => Ok(false),
        }
    }
}
