//! The kept keys: a word for each place.

ghost use Rattle.std.specs.Prelude.{◌≡◌, ◌≢◌, ◌<◌, ℕ, [], IfSome, IsTrue, MatchOption, length, slice_index, slice_set};

use std::alloc::Global;
use std::marker::Model;

/// A word for each place up to the last that room was made for: the key of the page there, or 0 where none is kept. It is
/// seen as the list of its words.
#[derive(Drop)]
pub struct KnownKeys {
    words: Vec<u64>,
}

impl Model for KnownKeys {
    ghost use Rattle.std.specs.Prelude.{ℕ, List};

    ghost Value = { List ℕ };

    ghost view = { λ a. a.words.items };
}

impl KnownKeys {
    /// No key is kept, and no memory is taken.
    pub fn new(alloc: Global) -> KnownKeys
        ensures { result ≡ [] }
    {
        KnownKeys {
            words: Vec::new(alloc),
        }
    }

    /// The key that is kept of a place.
    pub fn get(&self, place: u32) -> Option<u64>
        ensures kept { MatchOption result (slice_index self.now place ≡ 0) (λ key. key ≡ slice_index self.now place) }
        ensures some { IfSome result (λ key. key ≢ 0) }
    {
        match self.words.get(place as usize) {
            Some(key) if *key != 0 => Some(*key),
            _ => None,
        }
    }

    /// Keeps no key of a place.
    pub fn forget(&mut self, place: u32)
        ensures { self.new ≡ slice_set self.old place 0 }
    {
        self.keep(place, 0);
    }

    /// Makes room for the key of a place, and answers whether there is any. The keys that are kept stay.
    pub fn make_room(&mut self, place: u32) -> bool
        ensures had { place < length self.old → IsTrue result }
        ensures reaches { IsTrue result → place < length self.new }
        ensures same { (at : ℕ) → slice_index self.new at ≡ slice_index self.old at }
    {
        let at = place as usize;
        at < self.words.len() || self.words.resize(at + 1, 0).is_ok()
    }

    /// Keeps the key of a place, where room was made for it. A key that is 0 is not kept.
    pub fn keep(&mut self, place: u32, key: u64)
        ensures { self.new ≡ slice_set self.old place key }
    {
        let at = place as usize;
        if at < self.words.len() {
            self.words[at] = key;
        }
    }
}

#[cfg(test)]
mod tests {
    use super::*;
    use std::test::Fail;

    #[test]
    fn keeps_keys_in_room_that_was_made(rt: HostRuntime) -> Result<(), Fail> {
        let mut known = KnownKeys::new(rt.alloc());
        known.keep(2, 7);
        assert_eq!(rt; known.get(2), None);
        assert!(rt; known.make_room(2));
        assert!(rt; known.make_room(0));
        known.keep(2, 7);
        known.keep(0, 5);
        known.keep(3, 9);
        assert_eq!(rt; known.get(0), Some(5));
        assert_eq!(rt; known.get(1), None);
        assert_eq!(rt; known.get(2), Some(7));
        assert_eq!(rt; known.get(3), None);
        known.forget(2);
        known.keep(0, 0);
        assert_eq!(rt; known.get(0), None);
        assert_eq!(rt; known.get(2), None);
        Ok(())
    }
}
