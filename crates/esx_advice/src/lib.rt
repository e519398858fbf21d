//! Laws of advice: what is advised can be done, and how far it leads.
#![tactic(auto)]

pub mod laws;
