//! The figures of a site and of its virtual machines, and the steps of a path at which they changed.
#![tactic(auto)]

pub mod figures;
pub mod laws;
pub mod steps;
pub mod telling;

pub use figures::Figures;
pub use steps::Step;
