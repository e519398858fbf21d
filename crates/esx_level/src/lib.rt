//! One step of the reclamation level, from the thresholds of a site (Waldspurger, "Dynamic
//! Reallocation").
#![tactic(auto)]

ghost use Rattle.std.specs.Prelude.{◌≡◌};
ghost use Rattle.esx_formulas.specs.Level.{next_level, deepest, raised};
ghost use Rattle.esx_types.specs.Ranges.{IsConfig};

use esx_formulas::level::{depth, margin, threshold};
use esx_types::{Config, Level};
use std::marker::Model;

/// The thresholds of a site's levels, in frames, seen as the site's numbers.
///
/// A threshold is a percentage of the frames, rounded down, and no less than 4, 3, 2 and 1 for `High`,
/// `Soft`, `Hard` and `Low`. The margin is a half percent of the frames, rounded down, and no less than 1.
#[derive(Clone, Copy, Debug)]
pub struct Thresholds {
    config: Config,
    high: u32,
    soft: u32,
    hard: u32,
    low: u32,
    margin: u32,
}

impl Model for Thresholds {
    ghost use Rattle.esx_types.specs.declared.config.Config.{Config};

    ghost Value = { Config };

    ghost use Rattle.esx_level.specs.Inside.{AreOfSite, of_site, of_site_is};

    ghost view = { λ a. a.config };

    ghost invariant = { AreOfSite };

    ghost inverse = { of_site };

    ghost inverse_ok = { of_site_is };
}

impl Thresholds {
    /// The thresholds of a site whose numbers were checked.
    pub fn of(config: Config) -> Thresholds
        requires { IsConfig config }
        ensures { result ≡ config }
    {
        Thresholds {
            config,
            high: threshold(config.frames, config.high, 4),
            soft: threshold(config.frames, config.soft, 3),
            hard: threshold(config.frames, config.hard, 2),
            low: threshold(config.frames, config.low, 1),
            margin: margin(&config),
        }
    }

    /// The site's numbers.
    pub fn config(&self) -> &Config
        ensures { result.now ≡ self.now }
    {
        &self.config
    }

    /// The level after one more event, where `free` frames are free now. It falls to the deepest level
    /// whose threshold `free` is below, any number of levels at once; it rises one level at a time, and
    /// only where `free` is at least the margin above the threshold of the level that it rises to.
    #[tactic(auto, unfolding(esx_formulas::specs::Level::next_level))]
    pub fn next(self, level: Level, free: u32) -> Level
        ensures { result ≡ next_level self level free }
    {
        let deepest = self.deepest(free);
        if depth(level) < depth(deepest) {
            deepest
        } else {
            self.raised(free, level)
        }
    }

    /// The deepest level whose threshold the free frames are below.
    fn deepest(self, free: u32) -> Level
        ensures { result ≡ deepest self free }
    {
        if free < self.low {
            Level::Low
        } else if free < self.hard {
            Level::Hard
        } else if free < self.soft {
            Level::Soft
        } else {
            Level::High
        }
    }

    /// The level above, where enough frames are free.
    fn raised(self, free: u32, level: Level) -> Level
        ensures { result ≡ raised self free level }
    {
        match level {
            Level::Soft if self.high + self.margin <= free => Level::High,
            Level::Hard if self.soft + self.margin <= free => Level::Soft,
            Level::Low if self.hard + self.margin <= free => Level::Hard,
            stays => stays,
        }
    }
}

#[cfg(test)]
mod tests {
    use super::*;
    use esx_types::BadSpec;
    use std::process::Abort;
    use std::test::Fail;

    /// The thresholds of a site with so many frames, at 6, 4, 2 and 1 percent.
    fn thresholds(frames: u32) -> Result<Thresholds, BadSpec> {
        let config = Config {
            frames,
            page: 16,
            slots: 8,
            tau: 75,
            high: 6,
            soft: 4,
            hard: 2,
            low: 1,
            nodes: 16777216,
        };
        Ok(Thresholds::of(config.check()?))
    }

    /// Goes from `High` through numbers of free frames, each with the level that it leads to.
    fn expect_levels(rt: &impl Abort, thresholds: Thresholds, steps: &[(u32, Level)]) {
        let mut level = Level::High;
        for (free, expected) in steps {
            level = thresholds.next(level, *free);
            assert_eq!(rt; level, *expected);
        }
    }

    #[test]
    fn a_small_site_rises_past_the_margin(rt: HostRuntime) -> Result<(), Fail> {
        let steps = [
            (5, Level::High),
            (3, Level::Soft),
            (4, Level::Soft),
            (6, Level::Soft),
            (7, Level::High),
        ];
        expect_levels(&rt, thresholds(100)?, &steps);
        Ok(())
    }

    #[test]
    fn a_small_site_falls_at_once_and_rises_by_one(rt: HostRuntime) -> Result<(), Fail> {
        let steps = [
            (0, Level::Low),
            (1, Level::Low),
            (3, Level::Hard),
            (3, Level::Hard),
            (5, Level::Soft),
        ];
        expect_levels(&rt, thresholds(100)?, &steps);
        Ok(())
    }

    #[test]
    fn a_large_site_falls_below_each_threshold(rt: HostRuntime) -> Result<(), Fail> {
        let steps = [
            (40, Level::High),
            (39, Level::Soft),
            (20, Level::Soft),
            (19, Level::Hard),
            (10, Level::Hard),
            (9, Level::Low),
        ];
        expect_levels(&rt, thresholds(1000)?, &steps);
        Ok(())
    }

    #[test]
    fn a_large_site_rises_past_each_margin(rt: HostRuntime) -> Result<(), Fail> {
        let steps = [
            (9, Level::Low),
            (24, Level::Low),
            (25, Level::Hard),
            (44, Level::Hard),
            (45, Level::Soft),
            (64, Level::Soft),
            (65, Level::High),
        ];
        expect_levels(&rt, thresholds(1000)?, &steps);
        Ok(())
    }
}
