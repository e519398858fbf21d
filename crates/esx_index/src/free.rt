//! The index: a word for each sixty-four places, and an index of its own over the words.

ghost use Rattle.std.specs.Prelude.{◌≡◌, ◌<◌, ◌^◌, IfOk, IfSome, true, length, replicate, slice_index, slice_set};
ghost use Rattle.std.specs.List.{position_from};
ghost use Rattle.esx_index.specs.Marks.{MarksFirst, lowest_mark_of};

use crate::word::{first_marked, with_mark};
use std::alloc::{AllocError, Global};
use std::marker::Model;

/// Which places of a list are free, seen as a list of `bool`.
///
/// A word holds the marks of sixty-four places. Where there are several words, an index of the same kind
/// says which of them have a mark, so that a million places take four steps to look up or change.
#[cycle(index)]
#[derive(Drop)]
pub struct FreeIndex {
    len: usize,
    words: Vec<u64>,
    above: Above,
}

/// What stands over the words of an index.
#[cycle(index)]
#[derive(Drop)]
enum Above {
    /// Nothing, over one word at most.
    Top,
    /// The index of the words that have a mark.
    Words(Box<FreeIndex>),
}

impl Model for FreeIndex {
    ghost use Rattle.std.specs.Prelude.{List, Bool, length};

    ghost Value = { List Bool };

    ghost use Rattle.esx_index.specs.Places.{places};
    ghost use Rattle.esx_index.specs.Index.{IsIndex};

    ghost view = { λ a. places a.len a.words.items };

    ghost invariant = { λ a. IsIndex a.above a.len a.words.items };

    ghost size = { length };

    ghost use Rattle.esx_index.specs.Falls.{child_smaller};

    ghost size_decreases = { λ a h. child_smaller a.above a.len a.words.items h };
}

impl FreeIndex {
    /// An index of that many places, all of them free.
    pub fn new(alloc: Global, len: usize) -> Result<FreeIndex, AllocError>
        ensures { IfOk result (λ index. index ≡ replicate len true) }
    {
        let words = all_marked(alloc, len)?;
        let above = if words.len() > 1 {
            let index = FreeIndex::new(alloc, words.len())?;
            Above::Words(Box::new(alloc, index)?)
        } else {
            Above::Top
        };
        Ok(FreeIndex { len, words, above })
    }

    /// Says whether a place is free. The index above is told only where the word gets its first mark or loses its last.
    pub fn set(&mut self, at: usize, free: bool)
        requires { at < length self.old }
        ensures { self.new ≡ slice_set self.old at free }
    {
        let before = self.words[at / 64];
        let word = with_mark(before, (at % 64) as u32, free);
        self.words[at / 64] = word;
        if (before == 0) == (word == 0) {
            return;
        }
        match &mut self.above {
            Above::Top => {}
            Above::Words(above) => above.set(at / 64, word != 0),
        }
    }

    /// The least free place; none where no place is free.
    pub fn least(&self) -> Option<usize>
        ensures { result ≡ position_from (λ free. free) 0 self.now }
    {
        match &self.above {
            Above::Top => lowest_mark(&self.words, 0),
            Above::Words(above) => lowest_mark(&self.words, above.least()?),
        }
    }
}

/// The place of the lowest mark of one word; none where that word has none.
fn lowest_mark(words: &[u64], at: usize) -> Option<usize>
    requires { slice_index words.now at < 2 ^ 64 → IfSome (lowest_mark_of words.now at) (λ place. place < 2 ^ 64) }
    ensures place { result ≡ lowest_mark_of words.now at }
    ensures fits { slice_index words.now at < 2 ^ 64 }
{
    let word = *words.get(at)?;
    if word == 0 {
        return None;
    }
    Some(at * 64 + word.trailing_zeros() as usize)
}

/// Words in which the first `len` places are marked, and no other.
fn all_marked(alloc: Global, len: usize) -> Result<Vec<u64>, AllocError>
    ensures { IfOk result (λ words. MarksFirst len words.items) }
{
    let mut words = vec![in alloc; u64::MAX; len.div_ceil(64)]?;
    if len % 64 != 0 {
        words[len / 64] = first_marked((len % 64) as u32);
    }
    Ok(words)
}

#[cfg(test)]
mod tests {
    use super::*;
    use std::test::Fail;

    #[test]
    fn finds_the_least_place(rt: HostRuntime) -> Result<(), Fail> {
        let mut index = FreeIndex::new(rt.alloc(), 4097)?;
        assert_eq!(rt; index.least(), Some(0));
        index.set(0, false);
        assert_eq!(rt; index.least(), Some(1));
        Ok(())
    }
}
