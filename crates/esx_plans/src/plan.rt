//! Plans, a file for each mechanism.

pub mod admission;
pub mod balloon;
pub mod event;
pub mod leaving;
pub mod ratios;
pub mod rebalancing;
pub mod sampling;
pub mod starting;
