//! Whether a listed frame may have the bytes of another. A look finds a page to share with only where one has.

ghost use Rattle.std.specs.Prelude.{◌≡◌, ◌≢◌, ℕ, true, false, length};
ghost use Rattle.esx_types.specs.declared.table.Listing.TheVariants.{Unlisted};
ghost use Rattle.esx_types.specs.Frames.{bytes_of, frame_at};
ghost use Rattle.esx_types.specs.Listings.{listing_at};
ghost use Rattle.esx_prints.specs.Prints.{NoneWaits};
ghost use Rattle.esx_tables.specs.Listed.{AreNoted};

use crate::tables::{SiteTables, bytes_in};
use esx_frames::FrameTable;
use esx_keys::Listings;
use esx_prints::Prints;
use esx_types::Listing;
use std::alloc::Global;

impl SiteTables {
    /// May a frame that stands under a key have the same bytes as this one? Where the answer is no, none has. It is yes
    /// without a look where the page's key is kept, where too little was asked before, and where memory is refused for
    /// what has to be known.
    pub fn may_be_listed(&mut self, alloc: Global, frame: u32) -> bool
        ensures same { self.new ≡ self.old }
        ensures none { result ≡ false → (other : ℕ) → listing_at self.old.listings other ≢ Unlisted
            → bytes_of (frame_at self.old.frames other) ≢ bytes_of (frame_at self.old.frames frame) }
    {
        self.frames.known_key(frame).is_some()
            || may_be_listed(&mut self.prints, alloc, &self.frames, &self.listings, frame)
    }
}

fn may_be_listed(
    prints: &mut Prints,
    alloc: Global,
    frames: &FrameTable,
    listings: &Listings,
    frame: u32,
) -> bool
    requires { AreNoted frames.now listings.now prints.old }
    ensures noted { AreNoted frames.now listings.now prints.new }
    ensures none { result ≡ false → (other : ℕ) → listing_at listings.now other ≢ Unlisted
        → bytes_of (frame_at frames.now other) ≢ bytes_of (frame_at frames.now frame) }
{
    if !prints.begin(alloc, listings.len()) {
        return true;
    }
    if !note_waiting(prints, frames, listings) {
        return true;
    }
    prints.has(bytes_in(frames, frame))
}

/// Notes the contents of listed frames that wait, as far as the looks last. Yes only where none waits then.
fn note_waiting(prints: &mut Prints, frames: &FrameTable, listings: &Listings) -> bool
    requires { AreNoted frames.now listings.now prints.old }
    ensures noted { AreNoted frames.now listings.now prints.new }
    ensures places { length prints.new.waiting ≡ length prints.old.waiting }
    ensures none { result ≡ true → NoneWaits prints.new }
{
    'waiting: for _look in 0..prints.looks() {
        if prints.looks() == 0 {
            return false;
        }
        match prints.waiting() {
            Some(frame) => note(prints, frames, listings, frame),
            None => return true,
        }
    }
    false
}

/// Notes the content of a frame, where it is listed.
fn note(prints: &mut Prints, frames: &FrameTable, listings: &Listings, frame: u32)
    requires { AreNoted frames.now listings.now prints.old }
    ensures noted { AreNoted frames.now listings.now prints.new }
    ensures places { length prints.new.waiting ≡ length prints.old.waiting }
{
    match listings.get(frame) {
        Listing::Unlisted => prints.pass(frame),
        Listing::Shared { .. } | Listing::Hinted { .. } => {
            prints.note(frame, bytes_in(frames, frame))
        }
    }
}
