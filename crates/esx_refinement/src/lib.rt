//! The plan of each event does to the tables of a sound site what the event does to the site. The crate has no
//! code: its laws are contracts of functions that do nothing.
#![tactic(auto)]

pub mod laws;
