//! The keys that are kept of pages.
#![tactic(auto)]

mod known;

pub use known::KnownKeys;
