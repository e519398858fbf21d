//! Where a console keeps its lines.

ghost use Rattle.std.specs.Prelude.{◌≡◌, ◌<◌, ◌^◌, ◌++◌, ◌∷◌, [], ℕ, List, OnOk, length, vec_len, vec_capacity};
ghost use Rattle.esx_events.specs.declared.call.Call.{Call};
ghost use Rattle.esx_events.specs.declared.call.Line.{Line};

use esx_events::Line;
use std::alloc::AllocError;

/// The lines of a console, the oldest first, in one form or another.
pub trait Log: Drop {
    ghost lines: { Self → List Line };

    /// One more line can be noted.
    ghost has_room: { Self → Type 0 };

    /// A text may be handed in with a line of the call, so that the log need not make it.
    ghost spells: { List ℕ → Call → Type 0 };

    /// Takes room for one more line.
    fn take_room(&mut self) -> Result<(), AllocError>
        ensures kept { lines self.new ≡ lines self.old }
        ensures room { OnOk result (has_room self.new) }
        ensures few { OnOk result (length (lines self.new) < 2 ^ 63) };

    /// Adds a line, in room that was taken.
    fn note(&mut self, line: Line, spelled: &[u8])
        requires room { has_room self.old }
        requires spelled { spells spelled.now line.call }
        ensures { lines self.new ≡ lines self.old ++ line ∷ [] };

    /// No text needs to be handed in.
    ghost spells_nothing: { (call : Call) → spells [] call };
}

impl Log for Vec<Line> {
    ghost lines = { λ log. log.items };

    ghost has_room = { λ log. vec_len log < vec_capacity log };

    ghost spells = { λ _ _. Unit {0} };

    fn take_room(&mut self) -> Result<(), AllocError> {
        self.reserve(1)
    }

    fn note(&mut self, line: Line, spelled: &[u8]) {
        let _ = spelled;
        self.push_reserved(line);
    }

    ghost spells_nothing = { λ _. tt };
}
