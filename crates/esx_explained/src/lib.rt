//! Why a line is no command: which word of it, what was wanted there, and which command is the nearest.
#![tactic(auto)]

mod amiss;
mod command;
mod distance;
mod known;
pub mod laws;
mod line;
mod near;
mod operand;
mod reason;
mod source;
mod telling;
mod tried;

pub use amiss::Amiss;
pub use command::Command;
pub use line::explained;
pub use reason::Explanation;
pub use source::Explained;
pub use tried::AmissEvent;
