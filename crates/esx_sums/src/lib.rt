//! What a report counts along a path: for each life of each virtual machine, and for the site.
#![tactic(auto)]

pub mod guest;
pub mod laws;
pub mod level;
pub mod losses;
pub mod moving;
pub mod present;
mod refusals;
mod rows;
pub mod site;
pub mod sums;
mod tallies;
pub mod tally;

pub use guest::Guest;
pub use level::{LevelSums, Levels};
pub use losses::{LevelLosses, Returns};
pub use present::Present;
pub use site::{Extreme, SiteSums};
pub use sums::{Changes, Sums};
pub use tally::{Accesses, Moves, Over, Stay, Tally};
