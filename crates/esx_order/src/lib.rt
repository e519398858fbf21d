//! Which machines are above their targets, in the order of their taxed ratios, and how that is told.
#![tactic(auto)]

mod above;
pub mod laws;
mod order;
mod ratio;
mod telling;

pub use above::{Above, order_of};
pub use order::in_order;
pub use ratio::thousandths;
pub use telling::write_order;
