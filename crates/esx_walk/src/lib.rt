//! The walk along a path: what its machines lost and gained, told event by event.
#![tactic(auto)]

mod account;
mod holding;
pub mod lives;
mod looking;
mod opens;
mod order;
pub mod path;
mod telling;
pub mod walk;

pub use lives::Life;
pub use path::walk_path;
pub use walk::Walk;
