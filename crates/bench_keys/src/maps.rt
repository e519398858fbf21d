//! The same work on std's hash map.

use crate::numbers::mixed;
use crate::work::Work;
use esx_keys::Entry;
use rand_core::Rng;
use rand_pcg::Pcg32;
use std::alloc::AllocError;
use std::collections::HashMap;

pub fn fill(map: &mut HashMap<u64, Entry>, work: &Work) -> Result<(), AllocError> {
    for page in 0..work.hints {
        let key = mixed(u64::from(page));
        if !map.contains_key(&key) {
            map.insert(key, Entry::Hint { vm: work.vm, page })?;
        }
    }
    Ok(())
}

pub fn look_up(map: &HashMap<u64, Entry>, work: &Work) -> u64 {
    let mut rng = Pcg32::new(42, 54);
    let mut sum = 0_u64;
    for _ in 0..work.operations {
        let key = mixed(rng.next_u64() % (2 * u64::from(work.hints)));
        if let Some(Entry::Hint { page, .. }) = map.get(&key) {
            sum = sum.wrapping_add(u64::from(*page));
        }
    }
    sum
}

pub fn trade(map: &mut HashMap<u64, Entry>, work: &Work) -> Result<u64, AllocError> {
    let mut rng = Pcg32::new(42, 54);
    let mut sum = 0_u64;
    for _ in 0..work.operations {
        let key = mixed(rng.next_u64() % u64::from(work.hints));
        if let Some(entry) = map.remove(&key) {
            map.insert(key, entry)?;
            sum = sum.wrapping_add(key);
        }
    }
    Ok(sum)
}
