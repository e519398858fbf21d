//! The plans of events in which a page leaves its frame for a shared one or for a slot.
#![tactic(auto)]

pub mod paging;
pub mod sharing;
