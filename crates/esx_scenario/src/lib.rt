//! Scenarios: a site, the virtual machines that it starts with, what each of them does, and what the workers of
//! a run are told. They are read from a TOML text.
#![tactic(auto)]

mod guests;
mod keys;
mod line;
mod parse;
mod plan;
mod site;
mod strange;

pub use guests::MOST_LINES;
pub use parse::parse_scenario;
pub use plan::{Guest, MAX_TURNS, Scenario, Settings, TraceLine};
