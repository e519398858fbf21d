//! Lines as clauses see them, with no memory for them.

ghost use Rattle.std.specs.Prelude.{◌≡◌, ◌++◌, ◌∷◌, []};

use esx_events::Line;
use std::marker::Model;
use std::snapshot::Snapshot;

/// A list of lines, which may be gone: none, or those before the last, and the last.
#[derive(Drop)]
pub struct Listed {
    parts: Option<(Snapshot<Listed>, Snapshot<Line>)>,
}

impl Model for Listed {
    ghost use Rattle.std.specs.Prelude.{List, length};
    ghost use Rattle.std.specs.Option.{option_map};
    ghost use Rattle.esx_events.specs.declared.call.Line.{Line};
    ghost use Rattle.esx_told.specs.Listed.{listed_lines};

    ghost Value = { List Line };

    ghost view = { λ a. listed_lines (option_map (λ p. (p.0.value, p.1.value)) a.parts) };

    ghost size = { length };

    ghost use Rattle.std.proofs.Common.{arith, length-append};

    ghost size_decreases = { λ a h. Prim.grind (arith, length-append) };
}

impl Listed {
    /// No lines.
    pub fn none() -> Snapshot<Listed>
        ensures { result.value ≡ [] }
    {
        let none = Listed { parts: None };
        Snapshot::of(&none)
    }

    /// The lines and one more.
    pub fn longer(front: Snapshot<Listed>, line: &Line) -> Snapshot<Listed>
        ensures { result.value ≡ front.value ++ line.now ∷ [] }
    {
        let longer = Listed {
            parts: Some((front, Snapshot::of(line))),
        };
        Snapshot::of(&longer)
    }
}
