//! The table of swap slots.
#![tactic(auto)]

pub mod laws;
mod slots;

pub use slots::Slots;
