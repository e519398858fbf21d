//! Work on the table of keys.

ghost use Rattle.std.specs.Prelude.{◌<◌, IfOk};
ghost use Rattle.esx_keys.specs.Table.{entry_count};

use crate::numbers::mixed;
use crate::work::Work;
use esx_keys::{Entry, Keys, Kind};
use rand_core::Rng;
use rand_pcg::Pcg32;
use std::alloc::{AllocError, Global};

/// A table with its hints.
pub fn made(alloc: Global, work: &Work) -> Result<Keys, AllocError>
    ensures { IfOk result (λ keys. entry_count keys < keys.room) }
{
    let mut keys = Keys::new(alloc, work.room)?;
    for page in 0..work.hints {
        let key = mixed(u64::from(page));
        if keys.hint(key).is_none() {
            keys.put(key, Entry::Hint { vm: work.vm, page });
        }
    }
    Ok(keys)
}

/// Every second look-up finds a hint, on average.
pub fn look_up(keys: &Keys, work: &Work) -> u64 {
    let mut rng = Pcg32::new(42, 54);
    let mut sum = 0_u64;
    for _ in 0..work.operations {
        let key = mixed(rng.next_u64() % (2 * u64::from(work.hints)));
        if let Some((_, page)) = keys.hint(key) {
            sum = sum.wrapping_add(u64::from(page));
        }
    }
    sum
}

/// Takes out the hint under a key's short and puts it back, if there is one.
fn trade_one(keys: &mut Keys, key: u64) -> bool
    requires { entry_count keys.old < keys.old.room }
    ensures { entry_count keys.new < keys.new.room }
{
    match keys.take(key, Kind::Hint) {
        Some(entry) => {
            keys.put(key, entry);
            true
        }
        None => false,
    }
}

pub fn trade(keys: &mut Keys, work: &Work) -> u64
    requires { entry_count keys.old < keys.old.room }
{
    let mut rng = Pcg32::new(42, 54);
    let mut sum = 0_u64;
    for _ in 0..work.operations {
        let key = mixed(rng.next_u64() % u64::from(work.hints));
        if trade_one(keys, key) {
            sum = sum.wrapping_add(key);
        }
    }
    sum
}
