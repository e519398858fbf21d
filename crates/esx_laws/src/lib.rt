//! Laws of the definitions that nothing stands on: what holds of every path of events, and of the tree
//! of events. A function here does nothing: its contract is the law.
#![tactic(auto)]

pub mod paths;
pub mod trees;
pub mod versions;
