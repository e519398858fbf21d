//! The tables of a site as one thing, changes of them that lead back, and records of such changes.
#![tactic(auto)]

mod ahead;
mod change;
mod copy;
mod exchange;
pub mod laws;
mod listed;
mod machines;
mod period;
mod record;
mod tables;
mod vm_table;

pub use change::{Change, Facts, VmPart};
pub use esx_average::Averages;
pub use esx_frames::{Counts, Mark};
pub use record::{Record, RecordSize, frame_bytes};
pub use tables::SiteTables;
pub use vm_table::VmTable;
