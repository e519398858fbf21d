//! Doors: where a worker's calls go.

use esx_events::{Call, Reply};
use std::alloc::AllocError;

/// Where calls go, under one caller's number. A door has seen a log, which only grows, and knows each line of
/// its caller.
pub trait Door {
    ghost use Rattle.std.specs.Prelude.{◌≡◌, ◌++◌, ◌∷◌, [], ℕ, List, IfOk, OnErr};
    ghost use Rattle.esx_events.specs.declared.call.Call.{Call};
    ghost use Rattle.esx_events.specs.declared.call.Line.{Line};
    ghost use Rattle.esx_events.specs.declared.call.Reply.{Reply};
    ghost use Rattle.esx_door.specs.Own.{line, lines_of};

    ghost can_submit: { Self → Type 0 };

    ghost caller: { Self → ℕ };

    ghost seen: { Self → List Line };

    // what stays, whatever is submitted
    ghost leads: { Self → Self → Type 0 };

    // the door as it was became the door as it is when this call was answered behind it, with this reply; of a door of
    // which nothing more is known, calling is the one way to have this
    ghost made: { Self → Call → Reply → Self → Type 0 } = { λ _ _ _ _. Unit {0} };

    // the same where this call found no memory
    ghost wanted: { Self → Call → Self → Type 0 } = { λ _ _ _. Unit {0} };

    /// Makes a call, and tells the reply. Where memory runs out there is no line.
    fn submit(&mut self, call: Call) -> Result<Reply, AllocError>
        requires { can_submit self.old }
        ensures again { can_submit self.new }
        ensures leads { leads self.old self.new }
        ensures caller { caller self.new ≡ caller self.old }
        ensures ok { IfOk result (λ reply. lines_of (caller self.old) (seen self.new) ≡ lines_of (caller self.old) (seen self.old) ++ line (caller self.old) call reply ∷ []) }
        ensures made { IfOk result (λ reply. made self.old call reply self.new) }
        ensures wanted { OnErr result (wanted self.old call self.new) }
        ensures err { OnErr result (lines_of (caller self.old) (seen self.new) ≡ lines_of (caller self.old) (seen self.old)) };

    ghost leads_self: { (d : Self) → leads d d };

    ghost leads_on: { (d e f : Self) → leads d e → leads e f → leads d f };
}
