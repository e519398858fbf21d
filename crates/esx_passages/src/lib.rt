//! The changes of place of a path: how the pages of machines passed from where they were to where they are, event by event.
#![tactic(auto)]

pub mod laws;
pub mod passage;
pub mod telling;

pub use passage::{Pages, Passage, Passages};
