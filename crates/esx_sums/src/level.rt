//! After how many events each level stood, and how often it was entered.

ghost use Rattle.std.specs.Prelude.{◌≡◌};
ghost use Rattle.esx_sums.specs.Few.{IsShortLevel, AreShortLevels};
ghost use Rattle.esx_sums.specs.Site.{is_level};
ghost use Rattle.esx_sums.specs.Sums.{no_levels, level_after, levels_after};

use crate::tally::one_if;
use esx_types::Level;

/// After how many events a level stood, and how often it was entered.
#[derive(Clone, Copy, Debug, PartialEq, Eq)]
pub struct LevelSums {
    pub level: Level,
    pub events: u32,
    pub entered: u32,
}

/// Those of all levels.
#[derive(Clone, Copy, Debug, PartialEq, Eq)]
pub struct Levels {
    pub high: LevelSums,
    pub soft: LevelSums,
    pub hard: LevelSums,
    pub low: LevelSums,
}

fn no_sums(level: Level) -> LevelSums
    ensures { result ≡ record { level = level; events = 0; entered = 0 } }
{
    LevelSums {
        level,
        events: 0,
        entered: 0,
    }
}

/// Of no event.
pub(crate) fn no_levels() -> Levels
    ensures { result ≡ no_levels }
{
    Levels {
        high: no_sums(Level::High),
        soft: no_sums(Level::Soft),
        hard: no_sums(Level::Hard),
        low: no_sums(Level::Low),
    }
}

pub(crate) fn is_level(level: Level, other: Level) -> bool
    ensures { result ≡ is_level level other }
{
    match level {
        Level::High => matches!(other, Level::High),
        Level::Soft => matches!(other, Level::Soft),
        Level::Hard => matches!(other, Level::Hard),
        Level::Low => matches!(other, Level::Low),
    }
}

/// With one more event, which led from a level to another or the same.
fn level_after(sums: LevelSums, before: Level, after: Level) -> LevelSums
    requires { IsShortLevel sums }
    ensures { result ≡ level_after sums before after }
{
    let stands = is_level(sums.level, after);
    let stood = is_level(sums.level, before);
    LevelSums {
        level: sums.level,
        events: sums.events + one_if(stands),
        entered: sums.entered + one_if(stands && !stood),
    }
}

/// With one more event, which led from a level to another or the same.
pub(crate) fn levels_after(levels: Levels, before: Level, after: Level) -> Levels
    requires { AreShortLevels levels }
    ensures { result ≡ levels_after levels before after }
{
    Levels {
        high: level_after(levels.high, before, after),
        soft: level_after(levels.soft, before, after),
        hard: level_after(levels.hard, before, after),
        low: level_after(levels.low, before, after),
    }
}
