//! The console: calls in, replies out, and a log of both that tells the whole state. Where nobody reads the log
//! there is a console that keeps none.
#![tactic(auto)]

pub mod console;
mod hearing;
pub mod laws;
pub mod log;
pub mod unlogged;

pub use console::Console;
pub use log::Log;
pub use unlogged::Unlogged;
