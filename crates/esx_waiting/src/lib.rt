//! Waiting for the lock: no wake is lost.
#![tactic(auto)]

pub mod laws;
