//! The page map of a virtual machine.
#![tactic(auto)]

mod blocks;
pub mod laws;
mod loans;
mod map;

pub use map::PageMap;
