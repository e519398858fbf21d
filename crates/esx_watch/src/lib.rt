//! The watch of a path: a machine that makes its events one after another, and the steps at which figures changed.
#![tactic(auto)]

mod log;
mod looking;
mod parting;
mod shifting;
mod telling;
pub mod watch;

pub use watch::Watch;
