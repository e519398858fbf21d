//! What each event is to change of a site's tables, and what it answers, before anything is changed.
#![tactic(auto)]

pub mod plan;

pub use esx_changes::Plan;
