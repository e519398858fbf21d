//! The index over listings: chains of frames in ascending order, one for the numbers of each head. The number
//! that a shared frame stands under is its key, that of a hint its short.

ghost use Rattle.std.specs.Prelude.{◌≡◌, ◌<◌, ℕ, Option, Some, None, length, slice_set, IfOk, IfSome, replicate};
ghost use Rattle.std.specs.Int.{IsPowerOfTwo};
ghost use Rattle.std.specs.List.{position_from};
ghost use Rattle.esx_types.specs.declared.table.Listing.TheVariants.{Unlisted};
ghost use Rattle.esx_types.specs.Listings.{listing_at};
ghost use Rattle.esx_keys.specs.Chains.{AreApart, IsBefore, IsMoved, IsChained};
ghost use Rattle.esx_keys.specs.Index.{is_under, chain_of, chain_in, link_in, IsIndex, SameSizes};

use crate::arena::head_of;
use crate::chains;
use crate::entry::Kind;
use esx_grown::Grown;
use esx_types::Listing;
use std::alloc::{AllocError, Global};

/// What each frame stands under, the first frame of each chain, and after each frame the next of its
/// chain.
///
/// Until a frame is listed there is one chain, and from then on there are all.
#[derive(Drop)]
pub(crate) struct Index {
    pub(crate) listings: Grown<Listing>,
    pub(crate) heads: Vec<u32>,
    pub(crate) next: Grown<u32>,
    // How many chains all are. There is room for them from the start.
    chains: usize,
}

/// The chain of a listing.
fn chain_of(listing: &Listing, heads: usize) -> Option<usize>
    requires { IsPowerOfTwo heads }
    ensures { result ≡ chain_of heads listing.now }
{
    match listing {
        Listing::Unlisted => None,
        Listing::Shared { key } => Some(head_of(*key, heads)),
        Listing::Hinted { key, .. } => Some(head_of(u64::from(*key), heads)),
    }
}

/// Is this what stands under the number?
fn is_under(listing: &Listing, kind: Kind, number: u64) -> bool
    ensures { result ≡ is_under kind number listing.now }
{
    match listing {
        Listing::Unlisted => false,
        Listing::Shared { key } => kind == Kind::Shared && *key == number,
        Listing::Hinted { key, .. } => kind == Kind::Hint && u64::from(*key) == number,
    }
}

impl Index {
    /// That many frames that stand under nothing.
    pub(crate) fn new(alloc: Global, frames: u32) -> Result<Index, AllocError>
        ensures index { IfOk result IsIndex }
        ensures listings { IfOk result (λ index. index.listings ≡ replicate frames Unlisted) }
    {
        let frames = frames as usize;
        let chains = frames.next_power_of_two();
        let heads = chains::one_head(alloc, chains)?;
        let next = Grown::new(alloc, frames)?;
        let listings = Grown::new(alloc, frames)?;
        Ok(Index {
            listings,
            heads,
            next,
            chains,
        })
    }

    /// Makes the chains that are not there yet.
    fn spread(&mut self)
        requires { IsIndex self.old }
        ensures index { IsIndex self.new }
        ensures listings { self.new.listings ≡ self.old.listings }
        ensures chains { self.new.chains ≡ self.old.chains }
        ensures all { length self.new.heads.items ≡ self.new.chains }
    {
        chains::spread(&mut self.heads, self.chains);
    }

    /// The least frame of this kind under a number.
    pub(crate) fn find(&self, kind: Kind, number: u64) -> Option<u32>
        requires { IsIndex self.now }
        ensures { result ≡ position_from (is_under kind number) 0 self.now.listings }
    {
        let listings = self.listings.used();
        let mut at = self.heads[head_of(number, self.heads.len())];
        while (at as usize) < listings.len() {
            if is_under(&listings[at as usize], kind, number) {
                return Some(at);
            }
            at = *self.next.row(at as usize);
        }
        None
    }

    /// The last frame of a chain that is below a frame.
    fn last_below(&self, chain: usize, frame: u32) -> Option<u32>
        requires index { IsIndex self.now }
        requires chain { chain < length self.now.heads.items }
        requires frame { frame < length self.now.listings }
        ensures { IsBefore (chain_in self.now) chain frame result }
    {
        let mut last = None;
        let mut at = self.heads[chain];
        while at < frame {
            last = Some(at);
            at = *self.next.row(at as usize);
        }
        last
    }

    /// The frame that follows a frame of a chain, or its first.
    fn link(&self, chain: usize, last: Option<u32>) -> u32
        requires chain { chain < length self.now.heads.items }
        requires last { IfSome last (λ k. k < length self.now.next) }
        ensures { result ≡ link_in self.now chain last }
    {
        match last {
            Some(frame) => *self.next.row(frame as usize),
            None => self.heads[chain],
        }
    }

    /// Puts a frame after a frame of a chain, or first.
    fn set_link(&mut self, chain: usize, last: Option<u32>, to: u32)
        requires chain { chain < length self.old.heads.items }
        requires last { IfSome last (λ k. k < length self.old.next) }
        ensures sizes { SameSizes self.old self.new }
        ensures there { link_in self.new chain last ≡ to }
        ensures others { (b : ℕ) (o : Option ℕ) → AreApart b o chain last → link_in self.new b o ≡ link_in self.old b o }
    {
        match last {
            Some(frame) => *self.next.row_mut(frame as usize) = to,
            None => self.heads[chain] = to,
        }
    }

    /// Takes a frame out of its chain.
    fn unlink(&mut self, chain: usize, frame: u32)
        requires index { IsIndex self.old }
        requires chain { chain < length self.old.heads.items }
        requires frame { frame < length self.old.listings }
        requires there { chain_in self.old frame ≡ Some chain }
        ensures sizes { SameSizes self.old self.new }
        ensures chained { (moved : ℕ → Option ℕ) → IsMoved (chain_in self.old) frame None moved
            → IsChained (length self.new.listings) moved self.new.heads.items self.new.next }
    {
        let last = self.last_below(chain, frame);
        let onward = *self.next.row(frame as usize);
        self.set_link(chain, last, onward);
    }

    /// Puts a frame into a chain.
    fn insert(&mut self, chain: usize, frame: u32)
        requires index { IsIndex self.old }
        requires chain { chain < length self.old.heads.items }
        requires frame { frame < length self.old.listings }
        requires apart { chain_in self.old frame ≡ None }
        ensures sizes { SameSizes self.old self.new }
        ensures chained { (moved : ℕ → Option ℕ) → IsMoved (chain_in self.old) frame (Some chain) moved
            → IsChained (length self.new.listings) moved self.new.heads.items self.new.next }
    {
        let last = self.last_below(chain, frame);
        let onward = self.link(chain, last);
        *self.next.row_mut(frame as usize) = onward;
        self.set_link(chain, last, frame);
    }

    /// Takes a frame off what it stands under.
    pub(crate) fn unlist(&mut self, frame: u32) -> Listing
        requires index { IsIndex self.old }
        requires frame { frame < length self.old.listings }
        ensures index { IsIndex self.new }
        ensures listings { self.new.listings ≡ slice_set self.old.listings frame Unlisted }
        ensures result { result ≡ listing_at self.old.listings frame }
    {
        let before = *self.listings.row(frame as usize);
        if let Some(chain) = chain_of(&before, self.heads.len()) {
            self.unlink(chain, frame);
            *self.listings.row_mut(frame as usize) = Listing::Unlisted;
        }
        before
    }

    /// Puts a frame that stands under nothing under a key.
    pub(crate) fn enlist(&mut self, frame: u32, listing: Listing)
        requires index { IsIndex self.old }
        requires frame { frame < length self.old.listings }
        requires unlisted { listing_at self.old.listings frame ≡ Unlisted }
        ensures index { IsIndex self.new }
        ensures listings { self.new.listings ≡ slice_set self.old.listings frame listing }
    {
        if let Some(chain) = chain_of(&listing, self.chains) {
            self.spread();
            self.insert(chain, frame);
            *self.listings.row_mut(frame as usize) = listing;
        }
    }
}
