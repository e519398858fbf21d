//! The plans of events in which a page comes to a frame.
#![tactic(auto)]

pub mod access;
pub mod replacing;
