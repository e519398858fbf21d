//! Lists that change at one place: what a trade leaves, and the laws that it obeys.
#![tactic(auto)]

mod kept;
pub mod laws;

pub use kept::recount;
