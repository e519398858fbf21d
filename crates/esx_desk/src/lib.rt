//! The desk: a console that threads share.
//!
//! Each thread has a pass, submits calls through the desk, and knows what its pass has seen of the one log.
#![tactic(auto)]

pub mod desk;
pub mod laws;
mod legal;

pub use desk::{Desk, TryFault};
pub use esx_door::{Gate, Open};
pub use esx_lock::{Gauge, Pass};
