//! The second pass over a session for a report: the path to a node is surveyed, with the calls that made it and the refusals
//! that were met on it, and all that a report tells of it is gathered, each of its losses with its call.
#![tactic(auto)]

pub mod account;
mod asking;
mod choosing;
mod coursing;
mod lines;
mod pages;
mod parts;
mod surveying;
mod text;
mod watching;

pub use account::{Account, account_of};
pub use choosing::chosen;
pub use coursing::changes_of;
pub use lines::{loss_command, loss_lines};
pub use pages::most_pages;
pub use surveying::survey_script;
pub use text::survey_text;
pub use watching::steps_of;
