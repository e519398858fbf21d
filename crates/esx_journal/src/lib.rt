//! A journal over the machine: the tree of the accepted events, and a cursor that goes back and forth
//! on it. Each move costs one record for each event that it crosses, and no memory. Nodes have names,
//! branches are pruned, and events are tried without being made.
#![tactic(auto)]

mod children;
pub mod journal;
pub mod laws;
pub mod marks;
mod numbers;
mod row;
mod rows;
mod trial;

pub use journal::Journal;
pub use marks::Marks;
