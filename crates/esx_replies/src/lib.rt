//! Replies as text: what is said to a call, in one line or more.
#![tactic(auto)]

mod access;
mod admission;
mod answer;
mod balloon;
mod brief;
pub mod laws;
mod leaving;
mod marks;
mod moves;
mod names;
mod paging;
mod questions;
mod refusals;
mod said;
mod sampling;
mod sharing;
mod sides;
mod sign;
mod table;

pub use brief::is_brief;
pub use said::{print_reply, put_reply, write_reply};
pub use sign::Sign;
