//! Which machine of a scenario is the first that is refused as the site is opened, what is wanted with it, and what there is.
#![tactic(auto)]

mod coming;
mod opening;
mod starting;
mod telling;

pub use coming::{Lack, RefusedOpening};
pub use opening::refused_opening;
