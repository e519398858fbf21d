//! A text as clauses see it, with no memory for it.

ghost use Rattle.std.specs.Prelude.{◌≡◌, ◌++◌, ◌∷◌, []};

use std::marker::Model;
use std::snapshot::Snapshot;

/// Bytes, which may be gone: none, or those before the last, and the last.
#[derive(Drop)]
pub struct Noted {
    parts: Option<(Snapshot<Noted>, u8)>,
}

impl Model for Noted {
    ghost use Rattle.std.specs.Prelude.{List, ℕ, length};
    ghost use Rattle.std.specs.Option.{option_map};
    ghost use Rattle.esx_recording.specs.Noted.{noted_bytes};

    ghost Value = { List ℕ };

    ghost view = { λ a. noted_bytes (option_map (λ p. (p.0.value, p.1)) a.parts) };

    ghost size = { length };

    ghost use Rattle.std.proofs.Common.{arith, length-append};

    ghost size_decreases = { λ a h. Prim.grind (arith, length-append) };
}

impl Noted {
    /// No bytes.
    pub fn none() -> Snapshot<Noted>
        ensures { result.value ≡ [] }
    {
        let none = Noted { parts: None };
        Snapshot::of(&none)
    }

    /// The bytes and one more.
    pub fn longer(front: Snapshot<Noted>, byte: u8) -> Snapshot<Noted>
        ensures { result.value ≡ front.value ++ byte ∷ [] }
    {
        let longer = Noted {
            parts: Some((front, byte)),
        };
        Snapshot::of(&longer)
    }
}
