//! The scenario of a text.

ghost use Rattle.std.specs.Prelude.{IfOk, IfErr, option_map};
ghost use Rattle.esx_types.specs.Ranges.{IsConfig};
ghost use Rattle.toml.specs.View.{view, table_view};
ghost use Rattle.esx_scenario.specs.Keys.{Gives};
ghost use Rattle.esx_scenario.specs.Plans.{IsSettings};
ghost use Rattle.esx_scenario.specs.Sites.{site_at, settings_at};
ghost use Rattle.esx_scenario.specs.Scenarios.{IsRefused, IsScenario, scenario_in, version_in};

use crate::guests::guests_of;
use crate::keys::{bad_key, member, required_number, table_of};
use crate::plan::{Scenario, Settings};
use crate::site::{settings_of, site_of};
use crate::strange::check_keys;
use esx_reading::TextFault;
use esx_types::{Config, Version};
use std::alloc::Global;
use toml::{Table, Value};

/// What the workers are told where a scenario does not say it.
const SETTINGS: Settings = Settings {
    seed: 1,
    turns: 1000,
    sample: 100,
    length: 1000,
};

/// The site of the table at `machine`.
fn site_of_table(alloc: Global, machine: Option<&Table>) -> Result<Config, TextFault>
    ensures exact { Gives (site_at (option_map (λ t. table_view t.now) machine.entry)) result }
    ensures good { IfOk result IsConfig }
{
    let Some(table) = machine else {
        return Err(bad_key(alloc, "machine.", "frames"));
    };
    match site_of(table) {
        Ok(config) => Ok(config),
        Err(key) => Err(bad_key(alloc, "machine.", key)),
    }
}

/// The settings of the value at `run`.
fn settings_of_value(alloc: Global, run: Option<&Value>) -> Result<Settings, TextFault>
    ensures exact { Gives (settings_at (option_map (λ v. view v.now) run.entry)) result }
    ensures good { IfOk result IsSettings }
{
    let Some(value) = run else {
        return Ok(SETTINGS);
    };
    let Some(table) = value.as_table() else {
        return Err(bad_key(alloc, "run", ""));
    };
    match settings_of(table) {
        Ok(settings) => Ok(settings),
        Err(key) => Err(bad_key(alloc, "run.", key)),
    }
}

/// The version of a table.
fn version_of(alloc: Global, table: &Table) -> Result<Version, TextFault>
    ensures { Gives (version_in (table_view table.now)) result }
{
    match required_number(table, "version", 1, 2) {
        Ok(1) => Ok(Version::One),
        Ok(_) => Ok(Version::Two),
        Err(key) => Err(bad_key(alloc, "", key)),
    }
}

/// The scenario of a table.
fn scenario_of(alloc: Global, table: &Table) -> Result<Scenario, TextFault>
    ensures { Gives (scenario_in (table_view table.now)) result }
{
    let version = version_of(alloc, table)?;
    let config = site_of_table(alloc, table_of(table, "machine"))?;
    let settings = settings_of_value(alloc, member(table, "run"))?;
    let guests = guests_of(alloc, version, &config, member(table, "vm"))?;
    check_keys(alloc, version, table)?;
    Ok(Scenario::new(config, settings, guests))
}

/// The scenario of a TOML text.
///
/// `NotToml` comes where the text is no TOML. Otherwise `BadKey` names the first key, in the order of the
/// documentation, that is missing, of another kind or out of range; or, where all are good, the least path of
/// a key that no scenario of its version has.
pub fn parse_scenario(alloc: Global, text: &str) -> Result<Scenario, TextFault>
    ensures ok { IfOk result (IsScenario text.now) }
    ensures refused { IfErr result (IsRefused text.now) }
{
    match toml::table_from_str(alloc, text) {
        Ok(table) => scenario_of(alloc, &table),
        Err(error) => {
            if error.is_memory() {
                Err(TextFault::OutOfMemory)
            } else {
                Err(TextFault::NotToml)
            }
        }
    }
}
