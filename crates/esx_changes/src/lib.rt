//! What the plans of several mechanisms are made of: what is read of a machine's row, and what is changed.
#![tactic(auto)]

pub mod activity;
pub mod changes;
pub mod counted;
pub mod drawn;
pub mod leaves;
pub mod plan;
pub mod shared;
pub mod spare;

pub use plan::Plan;
