//! Sessions as texts: the site that a console was opened with, each call that was made of it, and what was
//! answered.
#![tactic(auto)]

mod calls;
pub mod laws;
mod line;
mod parse;
mod place;
mod printing;
pub mod session;
mod site;

pub use calls::{Calls, open_calls};
pub use parse::{parse_script, parse_session};
pub use printing::{
    ReplySign, print_session, put_end, put_line, put_opening, put_session, write_session,
};
pub use session::{Entry, Request, Script, Session};
