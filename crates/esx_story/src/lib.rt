//! The story of a path: what its machines lost and gained, in order.
#![tactic(auto)]

pub mod change;
pub mod laws;
pub mod story;
pub mod telling;

pub use change::{Asked, Change, Counts, How, Loan, Spot};
pub use story::{Loss, Order, Seen};
