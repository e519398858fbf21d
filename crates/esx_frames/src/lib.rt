//! The table of machine frames.
#![tactic(auto)]

mod counts;
mod frames;
pub mod laws;
mod marks;
mod seen;

pub use counts::Counts;
pub use frames::FrameTable;
pub use marks::Mark;
