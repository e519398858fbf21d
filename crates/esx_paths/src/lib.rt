//! The path to a node of a session, from the session's text: the calls that made it, in order, and the refusals that were
//! met on it.
#![tactic(auto)]

pub mod at;
pub mod laws;
pub mod makers;
pub mod mets;
pub mod past;
pub mod path;
pub mod text;
pub mod way;

pub use at::At;
pub use mets::Met;
pub use past::Past;
pub use path::Path;
pub use text::{Gone, past_of_text};
pub use way::Waypoint;
