//! What each event does, a file for each mechanism.

pub mod access;
pub mod admission;
pub mod balloon;
pub mod leaving;
pub mod paging;
pub mod rebalancing;
pub mod sampling;
pub mod sharing;
pub mod starting;
