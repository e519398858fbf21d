//! What was written so far, and where in a line its end stands.

ghost use Rattle.std.specs.Prelude.{◌≡◌, ◌++◌, ◌∷◌, [], if◌then◌else◌};
ghost use Rattle.esx_recording.specs.Questions.{kept_at, place_after};
ghost use Rattle.esx_recording.specs.declared.place.Place.TheVariants.{Start};

use crate::noted::Noted;
use crate::place::Place;
use std::marker::Model;
use std::mem::replace;
use std::snapshot::Snapshot;

/// A text that was written, seen as its list. No memory is taken for it.
#[derive(Drop)]
pub struct Seen {
    text: Snapshot<Noted>,
    place: Place,
}

impl Model for Seen {
    ghost use Rattle.std.specs.Prelude.{List, ℕ, ◌≡◌};
    ghost use Rattle.esx_recording.specs.Questions.{place_after};
    ghost use Rattle.esx_recording.specs.declared.place.Place.TheVariants.{Start};

    ghost Value = { List ℕ };

    ghost view = { λ s. s.text.value };

    ghost invariant = { λ s. s.place ≡ place_after Start s.text.value };
}

impl Seen {
    /// Nothing was written.
    pub fn new() -> Seen
        ensures { result ≡ [] }
    {
        Seen {
            text: Noted::none(),
            place: Place::Start,
        }
    }

    /// Whether bytes of one line that come next stand in a line that begins with a question mark.
    pub fn asks(&self, bytes: &[u8]) -> bool
        ensures { kept_at (place_after Start self.now) bytes.now ≡ (if result then bytes.now else []) }
    {
        match bytes.first() {
            Some(byte) => self.place.within(*byte) == Place::Question,
            None => false,
        }
    }

    /// One byte more was written.
    fn push(&mut self, byte: u8)
        ensures { self.new ≡ self.old ++ byte ∷ [] }
    {
        self.place = self.place.behind(byte);
        self.text = Noted::longer(replace(&mut self.text, Noted::none()), byte);
    }

    /// More was written.
    pub fn add(&mut self, bytes: &[u8])
        ensures { self.new ≡ self.old ++ bytes.now }
    {
        for byte in bytes {
            self.push(*byte);
        }
    }
}
