//! Consoles at which calls are made again, with a log of them or with none.

ghost use Rattle.std.specs.Prelude.{◌≡◌, ◌+◌, ◌<◌, ◌≤◌, ◌^◌, ℕ, IfOk, OnOk, OnErr};
ghost use Rattle.esx_events.specs.declared.call.Call.{Call};
ghost use Rattle.esx_model.specs.History.{History};
ghost use Rattle.esx_model.specs.Console.{Session, history, next_reply, lined};
ghost use Rattle.esx_console.specs.Unlogged.{AnswersAs};
ghost use Rattle.esx_console.specs.Hearing.{MayLackMemory, ComesToMemory};

use esx_console::{Console, Unlogged};
use esx_events::{Call, Reply};
use std::alloc::AllocError;

/// A console, whether it keeps a log or not.
pub trait AnyConsole {
    // it answers as the console of this session does
    ghost answers_as: { Self → Session → Type 0 };

    // how many moves of its cursor it has counted, where no log tells them
    ghost counted: { Self → ℕ };

    // memory may be wanting for this call behind that history
    ghost may_want: { History → Call → Type 0 };

    /// Makes a call that this caller made.
    fn call_again(&mut self, caller: u16, call: &Call) -> Result<Reply, AllocError>
        requires { counted self.old < 2 ^ 63 }
        ensures reply { IfOk result (λ reply. (s : Session) → answers_as self.old s → reply ≡ next_reply s call.now) }
        ensures made { OnOk result ((s : Session) → answers_as self.old s → answers_as self.new (lined s caller call.now)) }
        ensures few { OnOk result (counted self.new ≤ counted self.old + 1) }
        ensures wants { (s : Session) → answers_as self.old s → OnErr result (may_want (history s) call.now) };
}

/// Who called changes nothing, and nothing is copied.
impl AnyConsole for Unlogged {
    ghost answers_as = { AnswersAs };

    ghost counted = { λ kept. kept.jumps };

    ghost may_want = { λ h call. MayLackMemory call × ComesToMemory h call };

    fn call_again(&mut self, _caller: u16, call: &Call) -> Result<Reply, AllocError> {
        self.call(call)
    }
}

/// The log has who called, a copy of the call, and its reply.
impl AnyConsole for Console {
    ghost answers_as = { λ console s. console ≡ s };

    ghost counted = { λ _. 0 };

    ghost may_want = { λ _ _. Unit {0} };

    fn call_again(&mut self, caller: u16, call: &Call) -> Result<Reply, AllocError> {
        self.call(caller, call.copy()?)
    }
}
