//! Plays of the desk; thread_tests runs them.
#![tactic(auto)]

pub mod calls;
pub mod crowd;
pub mod plays;
pub mod replays;
pub mod signs;
pub mod wanting;
