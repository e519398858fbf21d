//! The model: what a machine memory manager is, for all of its events. Every crate above is proved against it.
#![tactic(auto)]

pub mod book;
pub mod laws;
pub mod look;
pub mod reserve_laws;
pub mod scene;
pub mod tables;

pub use book::{Book, Mark, PeriodRow, VmRow};
pub use look::{Look, Standing};
pub use scene::{Place, Scene, Site, Vm};
pub use tables::Tables;
