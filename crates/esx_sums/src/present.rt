//! What is told of each machine after an event.

/// A machine that stands: its pages in frames and in slots, and how many it is to have in frames.
#[derive(Clone, Copy, Debug, PartialEq, Eq)]
pub struct Present {
    pub here: u32,
    pub out: u32,
    pub target: u32,
}
