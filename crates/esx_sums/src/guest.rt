//! The row of a life of a virtual machine.

use esx_story::Counts;
use esx_types::VmId;

/// A life of a virtual machine, up to its end or to the end of the path.
///
/// `reads` and `writes` are those that were accepted, `counts` how its pages came and left, and `share`, `host`,
/// `cow` and `own` how their frames changed. `back` is how many of its losses came back, `soon` those of them
/// within 1000 events, `waits` how many accesses of lost pages were refused; `held` and `short` are how many
/// of its accesses were refused so in all. Of the `events` of its life it was `above` and `below` its target with so many;
/// `sum_here` adds the pages that it had at each, and `most` is the greatest of them. `here` and `target` are
/// those at the end, 0 and none where the life is over.
#[derive(Clone, Copy, Debug, PartialEq, Eq)]
pub struct Guest {
    pub vm: VmId,
    pub life: u32,
    pub reads: u32,
    pub writes: u32,
    pub counts: Counts,
    pub share: u32,
    pub host: u32,
    pub cow: u32,
    pub own: u32,
    pub back: u32,
    pub soon: u32,
    pub waits: u64,
    pub held: u32,
    pub short: u32,
    pub above: u32,
    pub below: u32,
    pub events: u32,
    pub sum_here: u64,
    pub most: u32,
    pub here: u32,
    pub target: Option<u32>,
}
