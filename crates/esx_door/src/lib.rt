//! Where the calls of a worker go, and what it passes before each of them.
#![tactic(auto)]

pub mod door;
pub mod gate;

pub use door::Door;
pub use gate::{Gate, Open};
