//! Logs that are told as texts, and one that is kept as the text of its session.
#![tactic(auto)]

mod adding;
mod latest;
mod listed;
mod spelled;
mod tells;
mod text_log;

pub use tells::Tells;
pub use text_log::TextLog;
