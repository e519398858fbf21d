//! What a worker passes before each of its calls.

/// What a caller passes on its way, told the number of its turn from 1 on. `false` is giving up.
pub trait Gate {
    ghost use Rattle.std.specs.Prelude.{ℕ, Bool, IsTrue};

    // it lets everything through, now and later; nothing is said of a gate of which this is not known
    ghost is_open: { Self → Type 0 } = { λ _. ⊥ };

    // the gate as it was became the gate as it is when it was passed once, told this turn, and gave this answer; of a
    // gate of which nothing more is known, passing it is the one way to have this
    ghost passes: { Self → ℕ → Bool → Self → Type 0 } = { λ _ _ _ _. Unit {0} };

    fn pass_through(&mut self, turn: u32) -> bool
        ensures open { is_open self.old → IsTrue result × is_open self.new }
        ensures passes { passes self.old turn result self.new };
}

/// A gate that is always open.
#[derive(Drop)]
pub struct Open;

impl Gate for Open {
    ghost is_open = { λ _. Unit {0} };

    fn pass_through(&mut self, _turn: u32) -> bool {
        true
    }
}
