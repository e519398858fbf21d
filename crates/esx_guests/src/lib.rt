//! What guests among workers read.
#![tactic(auto)]

pub mod laws;
