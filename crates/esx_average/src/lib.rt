//! Sampled activity, the taxed ratio, and stable targets for memory (Waldspurger, "Measuring Idle
//! Memory", "Reclaiming Idle Memory" and "Share-Based Allocation").
#![tactic(auto)]

pub mod averages;
mod bulk;
mod limit;
pub mod revoke;

pub use averages::Averages;
pub use esx_formulas::{Row, are_rows, least_ratio};
pub use revoke::targets;

#[cfg(test)]
mod tests;
