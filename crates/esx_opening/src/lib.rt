//! Opens the site of a scenario: its machines are admitted and started, before anybody works on it.
#![tactic(auto)]

pub mod opening;
pub mod order;

pub use opening::{SiteFault, open_site};
pub use order::in_order;
