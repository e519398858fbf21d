//! The first frame of each chain.

ghost use Rattle.std.specs.Prelude.{◌≡◌, ◌<◌, ◌≤◌, ◌-◌, ◌++◌, ◌∷◌, [], IfOk, length, replicate, vec_capacity};

use std::alloc::{AllocError, Global};

/// The number that names no frame.
const NO_FRAME: u32 = u32::MAX;

/// One chain that is empty, and room for so many.
pub(crate) fn one_head(alloc: Global, chains: usize) -> Result<Vec<u32>, AllocError>
    requires { 0 < chains }
    ensures heads { IfOk result (λ heads. heads.items ≡ NO_FRAME ∷ []) }
    ensures room { IfOk result (λ heads. chains ≤ vec_capacity heads) }
{
    let mut heads = Vec::with_capacity(alloc, chains)?;
    heads.push_reserved(NO_FRAME);
    Ok(heads)
}

/// Empty chains behind those that there are, in room that is there.
pub(crate) fn spread(heads: &mut Vec<u32>, chains: usize)
    requires { chains ≤ vec_capacity heads.old }
    ensures heads { heads.new.items ≡ heads.old.items ++ replicate (chains - length heads.old.items) NO_FRAME }
    ensures room { vec_capacity heads.old ≤ vec_capacity heads.new }
{
    if heads.len() < chains {
        heads.resize(chains, NO_FRAME).unwrap();
    }
}
