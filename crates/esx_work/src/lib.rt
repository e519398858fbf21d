//! Workers over a console that threads share.
#![tactic(auto)]

pub mod crew;
pub mod door;
pub mod run;
pub mod site;

pub use crew::Outcome;
pub use door::{ConsoleDoor, DeskDoor};
pub use esx_door::{Door, Gate, Open};
pub use esx_opening::SiteFault;
pub use esx_workers::{End, How, draw, guest, policy, sharer, swapper};
pub use site::run_site;
