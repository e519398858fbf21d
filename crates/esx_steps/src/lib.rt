//! What each event does to a site as data, the plain, slow way: each body follows its definition word for word.
#![tactic(auto)]

mod any;
mod event;
mod site;
mod vm;

pub use any::step;
pub use site::{free_count, pages_at, vm_of};
pub use vm::{has_overhead, is_here_at, is_out_at};
