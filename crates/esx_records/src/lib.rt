//! How much the record of an event holds. The crate has no code: its laws are contracts of functions that do
//! nothing.
#![tactic(auto)]

pub mod laws;
