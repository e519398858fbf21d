//! A loss as it is told: what stood about it when it came, and what came of it.

use crate::change::{Asked, Change, How, Loan};
use esx_formulas::Row;
use esx_types::Level;

/// Where a machine stands in the order in which machines are to give pages up.
#[derive(Clone, Copy, Debug, PartialEq, Eq)]
pub struct Order {
    /// What it has, its target for a floor.
    pub own: Option<Row>,
    /// How many machines are above their target.
    pub above: u32,
    /// Its place among them, from 1.
    pub rank: Option<u32>,
    /// The other machine that comes first among them.
    pub next: Option<Row>,
}

/// What is told of a scene and one machine. `tau` is the site's tax in percent; `own` tells whether the tax that holds
/// for the machine is its own.
#[derive(Clone, Copy, Debug, PartialEq, Eq)]
pub struct Seen {
    pub level: Level,
    pub free: u32,
    pub tau: u32,
    pub own: bool,
    pub order: Order,
}

/// A loss. Events are numbered along the path, from 1.
#[derive(Clone, Copy, Debug, PartialEq, Eq)]
pub struct Loss {
    /// The event that it came with.
    pub at: u32,
    pub change: Change,
    /// Which life of its machine it is, from 1.
    pub life: u32,
    /// The rebalance that set the targets in force.
    pub set: Option<u32>,
    /// What it asked for, in all and of the machine. None where it was made at level high.
    pub asked: Option<Asked>,
    /// The scene before the event.
    pub seen: Seen,
    /// The slot that the page went to, if it was paged out.
    pub slot: Option<u32>,
    /// What the balloon held before the loan and is to hold, if the page is lent.
    pub loan: Option<Loan>,
    /// The event with which the page is back.
    pub back: Option<u32>,
    /// How it came back.
    pub came: Option<How>,
    /// How many accesses of it were refused meanwhile for want of a frame.
    pub waits: u32,
}
