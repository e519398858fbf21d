//! What each frame stands under.

ghost use Rattle.std.specs.Prelude.{◌≡◌, ◌<◌, ℕ, true, IfOk, IfSome, IfNone, length, replicate, slice_set, slice_index_or};
ghost use Rattle.std.specs.List.{position_from};
ghost use Rattle.esx_types.specs.declared.table.Listing.TheVariants.{Unlisted};
ghost use Rattle.esx_types.specs.declared.table.KeyRow.{KeyRow};
ghost use Rattle.esx_types.specs.declared.table.Hint.{Hint};
ghost use Rattle.esx_keys.specs.Index.{is_listed};
ghost use Rattle.esx_types.specs.Listings.{listing_at, is_shared_under, is_hinted_under, IsSharedUnder, IsHintedUnder, shared_from, hints_of, in_order};

use crate::entry::Kind;
use crate::index::Index;
use crate::order;
use esx_types::{Hint, KeyRow, Listing, Rows};
use std::alloc::{AllocError, Global};
use std::marker::Model;

/// What each frame stands under, seen as the list of it, and an index by key and short over it; a frame's
/// number is its place. A shared frame stands under its key, a hint under its short.
///
/// No call but `new` and the two that list what stands takes memory. A listing takes 16 bytes, and a frame
/// 8 to 12 more, for the next of its chain and for the heads of chains, of which there are the least power
/// of two that is not less than the frames. `new` takes the room and touches none of it but one head: the
/// first listing touches all heads, and a frame that is listed its own row and those of the frames before it.
#[derive(Drop)]
pub struct Listings {
    index: Index,
    // How many frames stand under keys.
    listed: u32,
}

/// Does something stand there?
fn is_listed(listing: &Listing) -> bool
    ensures { result ≡ is_listed listing.now }
{
    match listing {
        Listing::Unlisted => false,
        Listing::Shared { .. } | Listing::Hinted { .. } => true,
    }
}

impl Model for Listings {
    ghost use Rattle.std.specs.Prelude.{List};
    ghost use Rattle.esx_types.specs.declared.table.Listing.{Listing};
    ghost use Rattle.esx_keys.specs.Index.{IsIndex, IsCounted};

    ghost Value = { List Listing };

    ghost view = { λ a. a.index.listings };

    ghost invariant = { λ a. IsIndex a.index × IsCounted a.index.listings a.listed };
}

impl Listings {
    /// That many frames, none of which stands under a key.
    pub fn new(alloc: Global, frames: u32) -> Result<Listings, AllocError>
        ensures { IfOk result (λ l. l ≡ replicate frames Unlisted) }
    {
        let index = Index::new(alloc, frames)?;
        Ok(Listings { index, listed: 0 })
    }

    /// How many frames there are.
    pub fn len(&self) -> u32
        ensures { result ≡ length self.now }
    {
        self.index.listings.len() as u32
    }

    /// Does no frame stand under a key? One look at a count.
    pub fn lists_none(&self) -> bool
        ensures { result ≡ true → (frame : ℕ) → listing_at self.now frame ≡ Unlisted }
    {
        self.listed == 0
    }

    /// What a frame stands under; past the last frame, nothing.
    pub fn get(&self, frame: u32) -> Listing
        ensures { result ≡ listing_at self.now frame }
    {
        match self.index.listings.get(frame as usize) {
            Some(listing) => *listing,
            None => Listing::Unlisted,
        }
    }

    /// The least frame that is shared under a key.
    pub fn shared_under(&self, key: u64) -> Option<u32>
        ensures least { result ≡ position_from (is_shared_under key) 0 self.now }
        ensures found { IfSome result (λ frame. IsSharedUnder key (listing_at self.now frame)) }
        ensures within { IfSome result (λ frame. frame < length self.now) }
        ensures none { IfNone result ((frame : ℕ) → ¬ IsSharedUnder key (listing_at self.now frame)) }
    {
        self.index.find(Kind::Shared, key)
    }

    /// The least frame whose page is a hint under a short.
    pub fn hinted_under(&self, short: u32) -> Option<u32>
        ensures least { result ≡ position_from (is_hinted_under short) 0 self.now }
        ensures found { IfSome result (λ frame. IsHintedUnder short (listing_at self.now frame)) }
        ensures within { IfSome result (λ frame. frame < length self.now) }
        ensures none { IfNone result ((frame : ℕ) → ¬ IsHintedUnder short (listing_at self.now frame)) }
    {
        self.index.find(Kind::Hint, u64::from(short))
    }

    /// The shared frames in order of key, and those under one key in order of number.
    pub fn shared(&self, alloc: Global) -> Result<Rows<KeyRow>, AllocError>
        ensures { IfOk result (λ rows. rows ≡ in_order (λ (row : KeyRow). row.key) (shared_from 0 self.now)) }
    {
        order::shared_in_order(alloc, self.index.listings.used())
    }

    /// The hints in order of short, and those under one short in order of their frames.
    pub fn hints(&self, alloc: Global) -> Result<Rows<Hint>, AllocError>
        ensures { IfOk result (λ rows. rows ≡ in_order (λ (hint : Hint). hint.key) (hints_of self.now)) }
    {
        order::hints_in_order(alloc, self.index.listings.used())
    }

    /// Trades what a frame stands under with what is handed over. Past the last frame nothing changes.
    pub fn trade(&mut self, frame: u32, listing: &mut Listing)
        ensures listings { self.new ≡ slice_set self.old frame listing.old }
        ensures listing { listing.new ≡ slice_index_or self.old frame listing.old }
    {
        if frame < self.len() {
            let before = self.unlist(frame);
            self.enlist(frame, *listing);
            *listing = before;
        }
    }

    /// Takes a frame off what it stands under.
    fn unlist(&mut self, frame: u32) -> Listing
        requires { frame < length self.old }
        ensures listings { self.new ≡ slice_set self.old frame Unlisted }
        ensures result { result ≡ listing_at self.old frame }
    {
        let before = self.index.unlist(frame);
        if is_listed(&before) {
            self.listed -= 1;
        }
        before
    }

    /// Puts a frame that stands under nothing under a key.
    fn enlist(&mut self, frame: u32, listing: Listing)
        requires frame { frame < length self.old }
        requires unlisted { listing_at self.old frame ≡ Unlisted }
        ensures { self.new ≡ slice_set self.old frame listing }
    {
        if is_listed(&listing) {
            self.listed += 1;
        }
        self.index.enlist(frame, listing);
    }
}

#[cfg(test)]
mod tests {
    use super::*;
    use std::test::Fail;

    #[test]
    fn frames_are_listed_again_where_none_was(rt: HostRuntime) -> Result<(), Fail> {
        let mut listings = Listings::new(rt.alloc(), 5)?;
        let mut listing = Listing::Shared { key: 13 };
        for frame in [4, 1, 3_u32] {
            assert!(rt; listings.lists_none());
            assert_eq!(rt; listings.shared_under(13), None);
            listings.trade(frame, &mut listing);
            assert_eq!(rt; listings.shared_under(13), Some(frame));
            assert_eq!(rt; listings.shared_under(5), None);
            assert_eq!(rt; listings.shared(rt.alloc())?.len(), 1);
            listings.trade(frame, &mut listing);
            assert_eq!(rt; listing, Listing::Shared { key: 13 });
        }
        assert_eq!(rt; listings.shared(rt.alloc())?.len(), 0);
        Ok(())
    }

    #[test]
    fn rows_and_heads_are_used_where_a_frame_is_listed(rt: HostRuntime) -> Result<(), Fail> {
        let mut listings = Listings::new(rt.alloc(), 5)?;
        listings.trade(4, &mut Listing::Unlisted);
        assert_eq!(rt; listings.shared_under(13), None);
        assert_eq!(rt; listings.index.heads.len(), 1);
        assert_eq!(rt; listings.index.next.used().len(), 0);
        assert_eq!(rt; listings.index.listings.used().len(), 0);

        listings.trade(2, &mut Listing::Shared { key: 13 });
        assert_eq!(rt; listings.index.heads.len(), 8);
        assert_eq!(rt; listings.index.next.used().len(), 5);
        assert_eq!(rt; listings.index.listings.used().len(), 5);
        Ok(())
    }
}
