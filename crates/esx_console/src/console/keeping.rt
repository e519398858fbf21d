//! Calls whose replies are read where they stand in the log.

ghost use Rattle.std.specs.Prelude.{◌≡◌, ◌++◌, ◌∷◌, [], ℕ, List, Some, None, IfOk, OnOk, OnErr};
ghost use Rattle.std.specs.Option.{option_copied};
ghost use Rattle.esx_events.specs.declared.call.Call.{Call};
ghost use Rattle.esx_events.specs.declared.call.Line.{Line};
ghost use Rattle.esx_model.specs.Console.{Session, next_reply, lined, IsLegal};
ghost use Rattle.esx_model.specs.History.{History};
ghost use Rattle.esx_journal.specs.Journal.{Holds};
ghost use Rattle.esx_console.specs.Hearing.{Hears};

use crate::console::Console;
use crate::hearing::twice::hear_twice;
use crate::hearing::{Heard, counted, hear};
use crate::log::Log;
use esx_events::{Call, Line, Reply};
use esx_journal::Journal;
use std::alloc::{AllocError, Global};

/// What is heard of a call, in no more room than it needs: of a list that grew as it was made, the copy is kept.
fn hear_to_keep(journal: &mut Journal, alloc: Global, call: &Call) -> Result<Heard, AllocError>
    ensures ok { IfOk result (λ heard. (h : History) → Holds journal.old h → Hears journal.new h call.now heard) }
    ensures err { (h : History) → Holds journal.old h → OnErr result (journal.new ≡ journal.old) }
{
    match call {
        Call::Table | Call::WhatIf { .. } => {
            let (_, copy) = hear_twice(journal, alloc, call)?;
            Ok(copy)
        }
        _ => hear(journal, alloc, call),
    }
}

impl<L: Log> Console<L> {
    /// Makes a call and logs it with its reply, as `call` does, and leaves the reply in the log alone: no copy is
    /// made but of a list that grew, which is logged in exact room. Where memory runs out nothing changes, and there
    /// is no line. The text may be the call's, for a log that would else have to make it.
    pub fn call_spelled(
        &mut self,
        caller: u16,
        call: Call,
        spelled: &[u8],
    ) -> Result<(), AllocError>
        requires { L.spells spelled.now call }
        ensures ok { OnOk result (self.new ≡ lined self.old caller call) }
        ensures err { OnErr result (self.new ≡ self.old) }
        ensures legal { IsLegal self.new }
    {
        self.log.take_room()?;
        let heard = hear_to_keep(&mut self.journal, self.alloc, &call)?;
        let jumps = counted(self.jumps, heard.jumped);
        self.jumps = jumps;
        let line = Line {
            caller,
            call,
            reply: Reply {
                jumps,
                said: heard.said,
            },
        };
        self.log.note(line, spelled);
        Ok(())
    }
}

impl Console {
    /// Makes a call and logs it with its reply, as `call` does, and leaves the reply in the log alone, where
    /// `last_reply` reads it: no copy is made but of a list that grew, which is logged in exact room. Where memory
    /// runs out nothing changes, and there is no line.
    pub fn call_kept(&mut self, caller: u16, call: Call) -> Result<(), AllocError>
        ensures ok { OnOk result (self.new ≡ lined self.old caller call) }
        ensures err { OnErr result (self.new ≡ self.old) }
        ensures legal { IsLegal self.new }
    {
        self.call_spelled(caller, call, &[])
    }

    /// The reply in the last line of the log, if there is one: after a call it is what was answered to it.
    pub fn last_reply(&self) -> Option<&Reply>
        ensures none { self.now.log ≡ [] → option_copied result ≡ None }
        ensures last { (before : List Line) (line : Line) → self.now.log ≡ before ++ line ∷ [] → option_copied result ≡ Some line.reply }
        ensures told { (before : Session) (caller : ℕ) (call : Call) → self.now ≡ lined before caller call → option_copied result ≡ Some (next_reply before call) }
    {
        let line = self.log.last()?;
        Some(&line.reply)
    }
}
