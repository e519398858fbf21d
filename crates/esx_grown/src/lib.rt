//! Lists of a fixed length that touch memory only as far as they are used.
#![tactic(auto)]

mod blank;
mod grown;

pub use blank::Blank;
pub use grown::Grown;
