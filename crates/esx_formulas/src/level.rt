//! What a site's levels are made from: thresholds, a margin, how deep a level is.

ghost use Rattle.std.specs.Prelude.{◌≡◌, ◌≤◌};
ghost use Rattle.esx_types.specs.declared.config.TheConstants.{MAX_FRAMES, MAX_HIGH};
ghost use Rattle.esx_formulas.specs.Level.{threshold, margin, depth};

use esx_types::{Config, Level};

/// A percentage of the frames, rounded down, and no less than the level's rank.
pub fn threshold(frames: u32, percent: u32, rank: u32) -> u32
    requires frames { frames ≤ MAX_FRAMES }
    requires percent { percent ≤ MAX_HIGH }
    ensures { result ≡ threshold frames percent rank }
{
    (frames * percent / 100).max(rank)
}

/// How deep a level is: 0 for `High`, 3 for `Low`.
pub fn depth(level: Level) -> u8
    ensures { result ≡ depth level }
{
    match level {
        Level::High => 0,
        Level::Soft => 1,
        Level::Hard => 2,
        Level::Low => 3,
    }
}

/// How far above a threshold the free frames rise to its level: a half percent of the frames, rounded
/// down, and no less than 1.
pub fn margin(config: &Config) -> u32
    ensures { result ≡ margin config.now }
{
    (config.frames / 200).max(1)
}
