//! The prints: a mark for each that was noted, and the places whose contents wait for it.

ghost use Rattle.std.specs.Prelude.{◌≡◌, ◌≢◌, ℕ, ◌+◌, ◌-◌, ◌^◌, min, Bool, List, true, false, IfOk, IfNone, OnOk, length};
ghost use Rattle.std.specs.List.{position_from};
ghost use Rattle.esx_prints.specs.Prints.{Noted, print, has_print, Covers, NoneWaits, none_known, touched, passed, noted};

use esx_index::FreeIndex;
use std::alloc::{AllocError, Global};
use std::hash::{FoldHasher, Hasher};
use std::marker::Model;

/// How many bits of a content's hash are its print.
const BITS: u32 = 17;

/// How many prints there are.
const PRINTS: usize = 1 << BITS;

/// After so many notes all is begun anew: until then at most one content in four has a print that another left.
const NOTES: u32 = 32768;

/// What is earned at each question, in looks at places that do not count.
const EARNED: u32 = 24;

/// What a note takes of it.
const NOTE: u32 = 4;

/// Contents at places, of which each that counts was noted by its print or waits for it; a place that is not known
/// waits. Where no known place waits, a content whose print was not noted is at no known place that counts; one whose
/// print was noted may be at one, or have the print of another.
///
/// A print is some bits of a hash that is fast, and not of one that nobody can make collide. Each question earns some
/// looks; it is for who looks to stop where none is left.
#[derive(Drop)]
pub struct Prints {
    waiting: FreeIndex,
    places: u32,
    marks: Vec<bool>,
    notes: u32,
    looks: u32,
}

impl Model for Prints {
    ghost use Rattle.std.specs.Prelude.{◌≡◌, ◌<◌, ◌^◌, length};
    ghost use Rattle.esx_prints.specs.Prints.{Noted};

    ghost Value = { Noted };

    ghost view = { λ a. record { waiting = a.waiting; marks = a.marks.items; looks = a.looks } };

    ghost invariant = { λ a. (a.places ≡ length a.waiting) × (a.places < 2 ^ 32) };
}

/// The print of a content.
#[tactic(auto, unfolding(crate::specs::Prints::print))]
fn print(bytes: &[u8]) -> usize
    ensures { result ≡ print bytes.now }
{
    let mut hasher = FoldHasher::default();
    hasher.write(bytes);
    (hasher.finish() >> (64 - BITS)) as usize
}

impl Prints {
    /// No place is known, and no memory is taken.
    pub fn new(alloc: Global) -> Result<Prints, AllocError>
        ensures { IfOk result (λ prints. prints ≡ none_known) }
    {
        Ok(Prints {
            waiting: FreeIndex::new(alloc, 0)?,
            places: 0,
            marks: Vec::new(alloc),
            notes: 0,
            looks: 0,
        })
    }

    /// A question about so many places begins, and earns some looks: are these the places that are known? Where they are
    /// not, or much was noted, all is begun anew, once as many looks are left; where memory is refused for it all stays
    /// as it was.
    pub fn begin(&mut self, alloc: Global, places: u32) -> bool
        ensures covers { (counts : ℕ → Bool) (contents : ℕ → List ℕ) → Covers counts contents self.old → Covers counts contents self.new }
        ensures places { result ≡ true → length self.new.waiting ≡ places }
        ensures looks { self.new.looks ≡ min (self.old.looks + EARNED) (2 ^ 32 - 1) }
    {
        self.looks = self.looks.saturating_add(EARNED);
        if self.places == places && !self.marks.is_empty() && self.notes < NOTES {
            return true;
        }
        self.looks >= places && self.begin_anew(alloc, places).is_ok()
    }

    /// All places wait, and nothing was noted.
    fn begin_anew(&mut self, alloc: Global, places: u32) -> Result<(), AllocError>
        ensures covers { (counts : ℕ → Bool) (contents : ℕ → List ℕ) → Covers counts contents self.old → Covers counts contents self.new }
        ensures places { OnOk result (length self.new.waiting ≡ places) }
        ensures looks { self.new.looks ≡ self.old.looks }
    {
        let waiting = FreeIndex::new(alloc, places as usize)?;
        let marks = vec![in alloc; false; PRINTS]?;
        self.waiting = waiting;
        self.places = places;
        self.marks = marks;
        self.notes = 0;
        Ok(())
    }

    /// The content of a place, or whether it counts, may be another from now on.
    pub fn touch(&mut self, place: u32)
        ensures prints { self.new ≡ touched place self.old }
        ensures covers { (was counts : ℕ → Bool) (old contents : ℕ → List ℕ)
            → ((at : ℕ) → at ≢ place → counts at ≡ true → was at ≡ true) → ((at : ℕ) → at ≢ place → contents at ≡ old at)
            → Covers was old self.old → Covers counts contents self.new }
    {
        if place < self.places {
            self.waiting.set(place as usize, true);
        }
    }

    /// The least place that waits.
    pub fn waiting(&self) -> Option<u32>
        ensures least { result ≡ position_from (λ waits. waits) 0 self.now.waiting }
        ensures none { IfNone result (NoneWaits self.now) }
    {
        match self.waiting.least() {
            Some(place) => Some(place as u32),
            None => None,
        }
    }

    /// How many looks are left of those that were earned.
    pub fn looks(&self) -> u32
        ensures { result ≡ self.now.looks }
    {
        self.looks
    }

    /// A place that does not count waits no more.
    pub fn pass(&mut self, place: u32)
        ensures prints { self.new ≡ passed place self.old }
        ensures covers { (counts : ℕ → Bool) (contents : ℕ → List ℕ) → counts place ≡ false → Covers counts contents self.old → Covers counts contents self.new }
    {
        self.looks = self.looks.saturating_sub(1);
        if place < self.places {
            self.waiting.set(place as usize, false);
        }
    }

    /// The content of a place is noted, and it waits no more.
    pub fn note(&mut self, place: u32, bytes: &[u8])
        ensures prints { self.new ≡ noted place bytes.now self.old }
        ensures covers { (counts : ℕ → Bool) (contents : ℕ → List ℕ) → contents place ≡ bytes.now → Covers counts contents self.old → Covers counts contents self.new }
    {
        self.looks = self.looks.saturating_sub(NOTE);
        let print = print(bytes);
        if place < self.places && print < self.marks.len() {
            if !self.marks[print] {
                self.notes = self.notes.saturating_add(1);
            }
            self.marks[print] = true;
            self.waiting.set(place as usize, false);
        }
    }

    /// Was the print of a content noted?
    pub fn has(&self, bytes: &[u8]) -> bool
        ensures { result ≡ has_print self.now bytes.now }
    {
        match self.marks.get(print(bytes)) {
            Some(mark) => *mark,
            None => false,
        }
    }
}

#[cfg(test)]
mod tests {
    use super::*;
    use std::test::Fail;

    /// Prints of so many places, none of which waits.
    fn known(alloc: Global, places: u32) -> Result<Prints, Fail> {
        let mut prints = Prints::new(alloc)?;
        'earn: for _question in 0..places {
            prints.begin(alloc, places);
        }
        'pass: for place in 0..places {
            prints.pass(place);
        }
        Ok(prints)
    }

    #[test]
    fn begins_once_enough_was_earned(rt: HostRuntime) -> Result<(), Fail> {
        let alloc = rt.alloc();
        let mut prints = Prints::new(alloc)?;
        assert!(rt; !prints.begin(alloc, 48 + 1));
        assert!(rt; !prints.begin(alloc, 48 + 1));
        assert!(rt; prints.begin(alloc, 48 + 1));
        assert_eq!(rt; prints.waiting(), Some(0));
        assert_eq!(rt; prints.looks(), 72);
        Ok(())
    }

    #[test]
    fn tells_what_was_noted(rt: HostRuntime) -> Result<(), Fail> {
        let mut prints = known(rt.alloc(), 8)?;
        assert_eq!(rt; prints.waiting(), None);
        assert!(rt; !prints.has(&[7; 256]));
        prints.note(3, &[7; 256]);
        assert!(rt; prints.has(&[7; 256]));
        assert!(rt; !prints.has(&[8; 256]));
        assert!(rt; !prints.has(&[7; 255]));
        assert!(rt; !prints.has(&[]));
        Ok(())
    }

    #[test]
    fn a_touched_place_waits_until_it_is_noted(rt: HostRuntime) -> Result<(), Fail> {
        let mut prints = known(rt.alloc(), 8)?;
        prints.touch(5);
        prints.touch(2);
        prints.touch(8);
        assert_eq!(rt; prints.waiting(), Some(2));
        prints.note(2, &[1]);
        assert_eq!(rt; prints.waiting(), Some(5));
        prints.pass(5);
        assert_eq!(rt; prints.waiting(), None);
        Ok(())
    }

    #[test]
    fn begins_anew_for_other_places_and_after_many_notes(rt: HostRuntime) -> Result<(), Fail> {
        let alloc = rt.alloc();
        let mut prints = known(alloc, 8)?;
        prints.note(0, &[1]);
        assert!(rt; prints.begin(alloc, 9));
        assert_eq!(rt; prints.waiting(), Some(0));
        assert!(rt; !prints.has(&[1]));
        prints.pass(0);
        'notes: for number in 0..50_000u32 {
            prints.note(1, &number.to_le_bytes());
        }
        'earn: for _question in 0..9 {
            prints.begin(alloc, 9);
        }
        assert_eq!(rt; prints.waiting(), Some(0));
        assert!(rt; !prints.has(&49_999u32.to_le_bytes()));
        Ok(())
    }

    #[test]
    fn looks_are_spent(rt: HostRuntime) -> Result<(), Fail> {
        let mut prints = known(rt.alloc(), 8)?;
        'spend: for _look in 0..100 {
            prints.note(1, &[1]);
        }
        assert!(rt; prints.looks() == 0);
        Ok(())
    }
}
