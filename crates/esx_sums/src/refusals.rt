//! How many events were refused for each reason.

ghost use Rattle.std.specs.Prelude.{◌≡◌, ◌+◌, ◌≤◌, ℕ, replicate, slice_index_or, slice_set, IfOk};
ghost use Rattle.esx_events.specs.Numbers.{refusal_number};
ghost use Rattle.esx_sums.specs.Sums.{REFUSALS};

use esx_events::Refusal;
use esx_types::Rows;
use std::alloc::{AllocError, Global};

/// How many numbers refusals have, from 0 on.
const REFUSALS: usize = 28;

pub(crate) fn no_refusals(alloc: Global) -> Result<Vec<u32>, AllocError>
    ensures { IfOk result (λ rows. rows.items ≡ replicate REFUSALS 0) }
{
    let mut rows = Vec::with_capacity(alloc, REFUSALS)?;
    for _number in 0..REFUSALS {
        rows.push(0)?;
    }
    Ok(rows)
}

pub(crate) fn refusals_at(refused: &Rows<u32>, number: usize) -> u32
    ensures { result ≡ slice_index_or refused.now number 0 }
{
    match refused.as_slice().get(number) {
        Some(count) => *count,
        None => 0,
    }
}

pub(crate) fn count_refusal(refused: &mut Rows<u32>, refusal: Refusal)
    requires { (k : ℕ) → slice_index_or refused.old k 0 ≤ 4294967294 }
    ensures { refused.new ≡ slice_set refused.old (refusal_number refusal) (slice_index_or refused.old (refusal_number refusal) 0 + 1) }
{
    let number = usize::from(refusal.number());
    let count = refusals_at(refused, number);
    refused.set(number, count + 1);
}
