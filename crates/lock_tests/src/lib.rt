//! Plays of the own lock, over a small value, and what is run of them in threads.
#![tactic(auto)]

pub mod crowd;
pub mod plays;
pub mod tally;
#[cfg(test)]
mod tests;
