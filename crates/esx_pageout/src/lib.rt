//! The word by which a page of a machine goes out.
#![tactic(auto)]

pub mod laws;
mod word;

pub use word::word_of;
