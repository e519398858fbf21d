//! An index over a list of places: it finds the least free one in a few looks.
#![tactic(auto)]

mod free;
mod word;

pub use free::FreeIndex;
