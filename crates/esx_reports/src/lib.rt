//! Answers to questions about a session: a report of the path to a node, one of its tables, or why a guest lost its pages.
//! The session is checked first.
#![tactic(auto)]

mod answer;
mod asking;
mod fault;
mod path;
mod question;
mod reasons;
mod telling;

pub use answer::Answer;
pub use fault::ReportFault;
pub use question::{Question, Table, What};
pub use telling::{answer_of, tell_answer};
