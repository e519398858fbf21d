//! Shared frames under content keys, and hints under the upper 32 bits of them, their shorts, from
//! Waldspurger's section on content-based page sharing: `Listings` by frame, with an index by key and short,
//! and `Keys`, the same index alone.
#![tactic(auto)]

mod arena;
mod chains;
mod entry;
mod index;
pub mod laws;
mod listings;
mod order;
mod table;

pub use entry::{Entry, Kind};
pub use esx_formulas::{content_key as key, short_of};
pub use listings::Listings;
pub use table::Keys;
