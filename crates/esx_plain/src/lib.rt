//! The plain, slow program of whole paths: it follows the definitions word for word, on a site as data.
#![tactic(auto)]

mod fault;
mod keys;
mod machines;
mod path;
mod show;

pub use fault::PlainFault;
pub use path::{replay, run};
