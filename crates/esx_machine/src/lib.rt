//! The memory manager by frame: tables that an event changes, and records that change them back.
#![tactic(auto)]

mod advice;
mod equal;
pub mod laws;
pub mod machine;
mod planning;
mod reading;
mod record;
mod rows;
mod table;

pub use machine::Machine;
pub use record::Record;
