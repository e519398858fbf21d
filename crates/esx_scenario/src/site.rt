//! The site and the settings of a scenario.

ghost use Rattle.std.specs.Prelude.{IfOk};
ghost use Rattle.toml.specs.View.{table_view};
ghost use Rattle.esx_types.specs.Ranges.{IsConfig};
ghost use Rattle.esx_scenario.specs.Keys.{Tries};
ghost use Rattle.esx_scenario.specs.Plans.{IsSettings};
ghost use Rattle.esx_scenario.specs.Sites.{AreLevels, IsPage, page_in, site_in, levels_in, settings_in};

use crate::keys::{optional_number, required_number};
use crate::plan::{MAX_TURNS, Settings};
use esx_types::{
    Config, MAX_FRAMES, MAX_HIGH, MAX_LENGTH, MAX_NODES, MAX_PAGE, MAX_SAMPLE, MAX_SLOTS, MAX_TAU,
    MIN_FRAMES, MIN_PAGE,
};
use toml::Table;

/// The page size.
fn page_of(table: &Table) -> Result<u32, &'static str>
    ensures exact { Tries (page_in (table_view table.now)) result }
    ensures range { IfOk result IsPage }
{
    let page = required_number(table, "page", MIN_PAGE as u64, MAX_PAGE as u64)?;
    if page % MIN_PAGE as u64 == 0 {
        Ok(page as u32)
    } else {
        Err("page")
    }
}

/// The percentages of the levels.
#[derive(Clone, Copy)]
struct Levels {
    high: u32,
    soft: u32,
    hard: u32,
    low: u32,
}

fn levels_of(table: &Table) -> Result<Levels, &'static str>
    ensures exact { Tries (levels_in (table_view table.now)) result }
    ensures range { IfOk result AreLevels }
{
    let high = optional_number(table, "high", 1, MAX_HIGH as u64, 6)?;
    let soft = optional_number(table, "soft", 1, high, 4)?;
    let hard = optional_number(table, "hard", 1, soft, 2)?;
    let low = optional_number(table, "low", 1, hard, 1)?;
    Ok(Levels {
        high: high as u32,
        soft: soft as u32,
        hard: hard as u32,
        low: low as u32,
    })
}

/// The site of a table.
pub fn site_of(table: &Table) -> Result<Config, &'static str>
    ensures exact { Tries (site_in (table_view table.now)) result }
    ensures good { IfOk result IsConfig }
{
    let frames = required_number(table, "frames", MIN_FRAMES as u64, MAX_FRAMES as u64)?;
    let page = page_of(table)?;
    let slots = required_number(table, "slots", 0, MAX_SLOTS as u64)?;
    let tau = optional_number(table, "tau", 0, MAX_TAU as u64, 75)?;
    let levels = levels_of(table)?;
    let nodes = optional_number(table, "nodes", 1, MAX_NODES as u64, MAX_NODES as u64)?;
    Ok(Config {
        frames: frames as u32,
        page,
        slots: slots as u32,
        tau: tau as u32,
        high: levels.high,
        soft: levels.soft,
        hard: levels.hard,
        low: levels.low,
        nodes: nodes as u32,
    })
}

/// The settings of a table.
pub fn settings_of(table: &Table) -> Result<Settings, &'static str>
    ensures exact { Tries (settings_in (table_view table.now)) result }
    ensures good { IfOk result IsSettings }
{
    let seed = optional_number(table, "seed", 0, 9223372036854775807, 1)?;
    let turns = optional_number(table, "turns", 1, MAX_TURNS as u64, 1000)?;
    let sample = optional_number(table, "sample", 1, MAX_SAMPLE as u64, 100)?;
    let length = optional_number(table, "length", 1, MAX_LENGTH as u64, 1000)?;
    Ok(Settings {
        seed,
        turns: turns as u32,
        sample: sample as u32,
        length: length as u32,
    })
}
