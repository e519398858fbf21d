//! What a report is told.

use crate::losses::LossLine;
use crate::site::{Opened, PathSums};
use esx_sums::{Guest, LevelLosses, Levels, SiteSums};

/// How many losses came in each way, at each level.
#[derive(Clone, Copy)]
pub struct LossesByLevel {
    pub high: LevelLosses,
    pub soft: LevelLosses,
    pub hard: LevelLosses,
    pub low: LevelLosses,
}

/// What a report tells of a path.
///
/// `opened` is the site as it was opened, `path` the path within its session, `levels` how long each level stood and
/// how often it was entered, and `site` what stood at the ends of the path and in between. `refusals` has at each
/// place, from 0 on, how many calls were refused on the path by the refusal of that number. `guests` has each life of
/// each machine, `losses` each page that was lost, both in the order of their tables, and `by_level` the counts of
/// these losses.
#[derive(Clone, Copy)]
pub struct Told<'a> {
    pub opened: Opened,
    pub path: PathSums,
    pub levels: Levels,
    pub site: SiteSums,
    pub refusals: &'a [u32],
    pub guests: &'a [Guest],
    pub by_level: LossesByLevel,
    pub losses: &'a [LossLine],
}
