//! What a recording is made of: a site that is opened with room to tell its session, a sink that passes on only the lines of
//! the answers that begin with a question mark, and the session, told at the end.
#![tactic(auto)]

pub mod laws;
mod noted;
mod place;
mod questions;
mod recording;
mod seen;

pub use questions::{Before, Questions};
pub use recording::{Made, Recorded, open_with_room, tell};
