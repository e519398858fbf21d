//! The same work on the listings of frames, a frame for each hint.

ghost use Rattle.std.specs.Prelude.{◌<◌};

use crate::numbers::mixed;
use crate::work::Work;
use esx_keys::{Listings, short_of};
use esx_types::Listing;
use rand_core::Rng;
use rand_pcg::Pcg32;
use std::alloc::{AllocError, Global};

/// Listings with their hints.
pub fn made(alloc: Global, work: &Work) -> Result<Listings, AllocError> {
    let mut listings = Listings::new(alloc, work.room)?;
    for page in 0..work.hints {
        let key = short_of(mixed(u64::from(page)));
        listings.trade(
            page,
            &mut Listing::Hinted {
                vm: work.vm,
                page,
                key,
            },
        );
    }
    Ok(listings)
}

/// Every second look-up finds a hint, on average.
pub fn look_up(listings: &Listings, work: &Work) -> u64 {
    let mut rng = Pcg32::new(42, 54);
    let mut sum = 0_u64;
    for _ in 0..work.operations {
        let key = mixed(rng.next_u64() % (2 * u64::from(work.hints)));
        if let Some(frame) = listings.hinted_under(short_of(key)) {
            sum = sum.wrapping_add(u64::from(frame));
        }
    }
    sum
}

/// Takes a frame's listing and gives it back.
fn trade_one(listings: &mut Listings, frame: u32) -> u64 {
    let mut listing = Listing::Unlisted;
    listings.trade(frame, &mut listing);
    let key = match listing {
        Listing::Hinted { key, .. } => u64::from(key),
        Listing::Shared { key } => key,
        Listing::Unlisted => 0,
    };
    listings.trade(frame, &mut listing);
    key
}

pub fn trade(listings: &mut Listings, work: &Work) -> u64 {
    let mut rng = Pcg32::new(42, 54);
    let mut sum = 0_u64;
    for _ in 0..work.operations {
        let frame = (rng.next_u64() % u64::from(work.hints)) as u32;
        sum = sum.wrapping_add(trade_one(listings, frame));
    }
    sum
}
