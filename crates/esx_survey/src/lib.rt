//! The walk of a path, and what is counted along it.
#![tactic(auto)]

mod before;
mod present;
pub mod survey;

pub use survey::Survey;
