//! Sessions gone through again: whether the calls have the replies that stand with them, the first that has another, what
//! they have, and the console that they lead to. A session's text is checked while it is read, with no session held.
#![tactic(auto)]

mod again;
mod check;
mod comparing;
mod consoles;
mod difference;
mod fault;
pub mod laws;
mod migration;
mod replay;
mod text;

pub use again::Again;
pub use check::{Checked, check_session, check_session_through, write_checked};
pub use comparing::has_text;
pub use difference::{Compared, Difference, write_compared};
pub use fault::OutputFault;
pub use migration::{MigrateFault, migrate, migrate_through};
pub use replay::replay_calls;
pub use text::{check_text, check_text_through, diff_as_read, diff_text_through};
