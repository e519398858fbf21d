//! Prints of the contents at places.
#![tactic(auto)]

mod prints;

pub use prints::Prints;
