//! Workers: what calls through a door, turn after turn, until it ends.
#![tactic(auto)]

pub mod draws;
pub mod end;
pub mod laws;
pub mod machine;
pub mod passed;
pub mod policing;
pub mod running;
pub mod sharing;
pub mod starting;
pub mod swapping;
pub mod visiting;
pub mod worker;

pub use draws::{draw, draw_word, draw_words};
pub use end::{End, How};
pub use machine::Machine;
pub use policing::PolicyWorker;
pub use running::run;
pub use sharing::SharerWorker;
pub use starting::{guest, policy, sharer, swapper};
pub use swapping::SwapperWorker;
pub use visiting::{GuestWorker, Step};
pub use worker::Worker;
