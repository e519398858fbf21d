//! The words of commands: which call a line asks for, and the one spelling of a call.
#![tactic(auto)]

mod commands;
mod event;
mod laws;
mod listed;
mod operands;
mod printing;
mod verbs;

pub use commands::parse_command;
pub use laws::{ascii_command, lower_command, one_call};
pub use printing::{print_command, put_command, write_command};
