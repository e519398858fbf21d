//! Commands and answers as text, and the loop that serves a console line by line.
#![tactic(auto)]

mod ahead;
mod answer;
mod calling;
mod echo;
mod ends;
mod fault;
pub mod laws;
mod line;
mod own;
mod pageout;
mod service;
mod telling;

pub use answer::LONGEST;
pub use echo::Manner;
pub use esx_reading::TextFault;
pub use esx_replies::print_reply;
pub use esx_words::{parse_command, print_command};
pub use fault::ServeFault;
pub use service::{give_up, serve, serve_in_manner};
pub use telling::print_session;
