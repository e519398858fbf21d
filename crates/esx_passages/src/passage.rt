//! A page's change of place.

use esx_story::{How, Spot};
use esx_types::VmId;

/// The pages that an event may move, in the order in which they are told.
#[derive(Clone, Copy, Debug, PartialEq, Eq)]
pub struct Pages {
    pub first: Option<(VmId, u32)>,
    pub second: Option<(VmId, u32)>,
}

/// How a page of a machine passed from where it was to where it is.
#[derive(Clone, Copy, Debug, PartialEq, Eq)]
pub struct Passage {
    pub vm: VmId,
    pub page: u32,
    pub how: How,
    pub from: Spot,
    pub to: Spot,
}

/// What an event moved, in the order in which it is told: two pages at most.
#[derive(Clone, Copy, Debug, PartialEq, Eq)]
pub struct Passages {
    pub first: Option<Passage>,
    pub second: Option<Passage>,
}
