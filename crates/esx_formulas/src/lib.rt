//! The formulas that touch no site: the key of a content, averages of sampled activity, the taxed ratio,
//! targets and the level. Here are their definitions, plain bodies that follow them (of the level, of what it
//! is made from), and their laws.
#![tactic(auto)]

pub mod activity;
mod block;
mod digest;
#[cfg(test)]
mod digest_tests;
pub mod key;
mod lanes;
pub mod laws;
pub mod level;
pub mod ratio;
mod rounds;
pub mod targets;
#[cfg(test)]
mod tests;

pub use activity::{Estimate, Period};
pub use key::{content_key, hint_key, short_of};
pub use ratio::least_ratio;
pub use targets::{Row, are_rows};
