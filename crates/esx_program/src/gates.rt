//! The gates of a run, and that of a check: they are always open, and count the turns.

ghost use Rattle.std.specs.Prelude.{◌≡◌, IfOk, length};

use crate::progress::Progress;
use esx_work::Gate;
use std::alloc::{AllocError, Global};

/// A gate that is always open, and counts the turns.
#[derive(Drop)]
pub struct Counting<'a, P> {
    pub progress: &'a Progress<'a, P>,
}

impl<'a, P: Print> Gate for Counting<'a, P> {
    ghost is_open = { λ _. Unit {0} };

    fn pass_through(&mut self, _turn: u32) -> bool {
        self.progress.add(1);
        true
    }
}

/// So many gates.
pub fn gates_of<'a, P: Print>(
    alloc: Global,
    progress: &'a Progress<'a, P>,
    count: usize,
) -> Result<Vec<Counting<'a, P>>, AllocError>
    ensures { IfOk result (λ gates. length gates.items ≡ count) }
{
    let mut gates = Vec::with_capacity(alloc, count)?;
    for _ in 0..count {
        gates.push(Counting { progress })?;
    }
    Ok(gates)
}
