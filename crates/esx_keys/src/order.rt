//! What stands under keys and shorts, in order of these.

ghost use Rattle.std.specs.Prelude.{◌≡◌, ◌<◌, ◌^◌, IfOk, length};
ghost use Rattle.esx_types.specs.declared.table.KeyRow.{KeyRow};
ghost use Rattle.esx_types.specs.declared.table.Hint.{Hint};
ghost use Rattle.esx_types.specs.Listings.{shared_row, hint_row, shared_from, hints_of, in_order};

use esx_types::{Hint, KeyRow, Listing, Rows};
use std::alloc::{AllocError, Global};

/// The row of a shared frame.
fn shared_row(frame: u32, listing: &Listing) -> Option<KeyRow>
    ensures { result ≡ shared_row frame listing.now }
{
    match listing {
        Listing::Shared { key } => Some(KeyRow { key: *key, frame }),
        Listing::Unlisted | Listing::Hinted { .. } => None,
    }
}

/// The hint that stands at a frame.
fn hint_row(listing: &Listing) -> Option<Hint>
    ensures { result ≡ hint_row listing.now }
{
    match listing {
        Listing::Hinted { vm, page, key } => Some(Hint {
            key: *key,
            vm: *vm,
            page: *page,
        }),
        Listing::Unlisted | Listing::Shared { .. } => None,
    }
}

/// The shared frames, in order of number.
fn shared_rows(alloc: Global, listings: &[Listing]) -> Result<Vec<KeyRow>, AllocError>
    requires { length listings.now < 2 ^ 32 }
    ensures { IfOk result (λ rows. rows.items ≡ shared_from 0 listings.now) }
{
    let mut rows = Vec::new(alloc);
    for frame in 0..listings.len() {
        if let Some(row) = shared_row(frame as u32, &listings[frame]) {
            rows.push(row)?;
        }
    }
    Ok(rows)
}

/// The hints, in order of their frames.
fn hint_rows(alloc: Global, listings: &[Listing]) -> Result<Vec<Hint>, AllocError>
    ensures { IfOk result (λ rows. rows.items ≡ hints_of listings.now) }
{
    listings.iter().filter_map(hint_row).collect(alloc)
}

/// The shared frames, in order of key.
pub(crate) fn shared_in_order(
    alloc: Global,
    listings: &[Listing],
) -> Result<Rows<KeyRow>, AllocError>
    requires { length listings.now < 2 ^ 32 }
    ensures { IfOk result (λ rows. rows ≡ in_order (λ (row : KeyRow). row.key) (shared_from 0 listings.now)) }
{
    let mut rows = shared_rows(alloc, listings)?;
    rows.sort_by_key(|row| row.key)?;
    Ok(Rows::from_vec(rows))
}

/// The hints, in order of short.
pub(crate) fn hints_in_order(alloc: Global, listings: &[Listing]) -> Result<Rows<Hint>, AllocError>
    ensures { IfOk result (λ rows. rows ≡ in_order (λ (hint : Hint). hint.key) (hints_of listings.now)) }
{
    let mut rows = hint_rows(alloc, listings)?;
    rows.sort_by_key(|hint| hint.key)?;
    Ok(Rows::from_vec(rows))
}
