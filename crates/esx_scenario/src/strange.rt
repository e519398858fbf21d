//! Keys that no scenario of a version has.

ghost use Rattle.std.specs.Prelude.{◌≡◌, Some, option_map, string_bytes, fold, IfOk};
ghost use Rattle.toml.specs.View.{table_view, items_view};
ghost use Rattle.esx_scenario.specs.Keys.{Gives};
ghost use Rattle.esx_scenario.specs.Strange.{least, lesser, none_strange, is_known, strange, strange_at, strange_from, strange_in};

use crate::guests::path_of_guest;
use crate::keys::{member, table_of};
use esx_reading::TextFault;
use esx_types::Version;
use std::alloc::{AllocError, Global};
use toml::{Table, Value};

/// Which table of a scenario it is.
#[derive(Clone, Copy, Debug, PartialEq, Eq)]
pub enum Place {
    Top,
    Machine,
    Run,
    Vm,
}

/// Whether a table may have the key.
fn knows(version: Version, place: Place, key: &str) -> bool
    ensures { result ≡ is_known version place key.now }
{
    match place {
        Place::Top => matches!(key, "version" | "machine" | "run" | "vm"),
        Place::Machine => matches!(
            key,
            "frames" | "page" | "slots" | "tau" | "high" | "soft" | "hard" | "low" | "nodes"
        ),
        Place::Run => matches!(key, "seed" | "turns" | "sample" | "length"),
        Place::Vm => {
            matches!(
                key,
                "id" | "min" | "max" | "overhead" | "shares" | "balloon" | "trace"
            ) || version.has_own_taxes() && key == "tau"
        }
    }
}

/// The lesser of two paths.
fn lesser_path(least: Option<String>, path: String) -> Option<String>
    ensures { option_map string_bytes result ≡ lesser (option_map string_bytes least) (string_bytes path) }
{
    match least {
        None => Some(path),
        Some(least) => {
            if path < least {
                Some(path)
            } else {
                Some(least)
            }
        }
    }
}

/// The least of a path and those of the strange keys of a table that stands under another.
fn least_in(
    alloc: Global,
    version: Version,
    least: Option<String>,
    place: Place,
    prefix: &str,
    table: &Table,
) -> Result<Option<String>, AllocError>
    ensures { IfOk result (λ l. option_map string_bytes l
        ≡ fold lesser (option_map string_bytes least) (strange_in version place prefix.now (table_view table.now))) }
{
    let mut least = least;
    'members: for (key, _) in table {
        if !knows(version, place, key.as_str()) {
            let path = format!(in alloc; "{prefix}{key}")?;
            least = lesser_path(least, path);
        }
    }
    Ok(least)
}

/// The same where the table may be missing.
fn least_at(
    alloc: Global,
    version: Version,
    least: Option<String>,
    place: Place,
    prefix: &str,
    table: Option<&Table>,
) -> Result<Option<String>, AllocError>
    ensures { IfOk result (λ l. option_map string_bytes l
        ≡ fold lesser (option_map string_bytes least) (strange_at version place prefix.now (option_map (λ t. table_view t.now) table.entry))) }
{
    match table {
        Some(table) => least_in(alloc, version, least, place, prefix, table),
        None => Ok(least),
    }
}

/// The same for the tables of the machines.
fn least_of_guests(
    alloc: Global,
    version: Version,
    least: Option<String>,
    values: &[Value],
) -> Result<Option<String>, AllocError>
    ensures { IfOk result (λ l. option_map string_bytes l
        ≡ fold lesser (option_map string_bytes least) (strange_from version 0 (items_view values.now))) }
{
    let mut least = least;
    for (place, value) in values.iter().enumerate() {
        if let Some(table) = value.as_table() {
            let prefix = path_of_guest(alloc, place)?;
            least = least_in(alloc, version, least, Place::Vm, prefix.as_str(), table)?;
        }
    }
    Ok(least)
}

/// The least path of a key that no scenario of the version has.
fn least_strange(
    alloc: Global,
    version: Version,
    table: &Table,
) -> Result<Option<String>, AllocError>
    ensures { IfOk result (λ l. option_map string_bytes l ≡ least (strange version (table_view table.now))) }
{
    let least = least_in(alloc, version, None, Place::Top, "", table)?;
    let machine = table_of(table, "machine");
    let least = least_at(alloc, version, least, Place::Machine, "machine.", machine)?;
    let run = table_of(table, "run");
    let least = least_at(alloc, version, least, Place::Run, "run.", run)?;
    let Some(value) = member(table, "vm") else {
        return Ok(least);
    };
    match value.as_array() {
        Some(values) => least_of_guests(alloc, version, least, values.as_slice()),
        None => Ok(least),
    }
}

/// Tells whether all keys are known; the least path is bad where one is not.
pub fn check_keys(alloc: Global, version: Version, table: &Table) -> Result<(), TextFault>
    ensures { Gives (none_strange (least (strange version (table_view table.now)))) result }
{
    match least_strange(alloc, version, table) {
        Ok(None) => Ok(()),
        Ok(Some(path)) => Err(TextFault::BadKey(path)),
        Err(_) => Err(TextFault::OutOfMemory),
    }
}
