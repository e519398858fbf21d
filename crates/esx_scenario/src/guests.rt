//! The virtual machines of a scenario.

ghost use Rattle.std.specs.Prelude.{◌≡◌, ◌≤◌, ◌++◌, [], length, string_bytes, option_map, IfOk, IfSome, false};
ghost use Rattle.std.specs.List.{All};
ghost use Rattle.esx_types.specs.Ranges.{IsGood, IsTax};
ghost use Rattle.esx_types.specs.declared.config.TheConstants.{VM_NUMBERS};
ghost use Rattle.toml.specs.View.{view, table_view, items_view};
ghost use Rattle.esx_scenario.specs.Lines.{IsWithin};
ghost use Rattle.esx_scenario.specs.Keys.{Gives, Names, Tries};
ghost use Rattle.esx_scenario.specs.Plans.{AreDistinct, IsGuest, has_number};
ghost use Rattle.esx_scenario.specs.Guests.{are_tables, guest_at, guests_at, guests_from, lines_from, number_at, spec_in, tau_in, trace_in, vm_path};

use crate::keys::{bad_key, given_number, member, required_number};
use crate::line::line_of_text;
use crate::plan::{Guest, TraceLine};
use esx_reading::TextFault;
use esx_types::{
    Config, MAX_OVERHEAD, MAX_PAGES, MAX_SHARES, MAX_TAU, Rows, Version, VmId, VmSpec,
};
use std::alloc::{AllocError, Global};
use toml::{Table, Value};

/// The most lines of a trace.
pub const MOST_LINES: usize = 65536;

/// Whether a machine has the number.
fn has_guest(guests: &[Guest], number: u8) -> bool
    ensures { result ≡ has_number guests.now number }
{
    guests.iter().any(|guest| guest.vm.number() == number)
}

/// The number of a machine that stands behind others.
fn number_of_guest(version: Version, earlier: &[Guest], table: &Table) -> Result<VmId, &'static str>
    ensures exact { Tries (number_at version earlier.now (table_view table.now)) result }
    ensures own { IfOk result (λ vm. has_number earlier.now vm ≡ false) }
{
    let number = required_number(table, "id", 0, version.vm_numbers() as u64 - 1)? as u8;
    if has_guest(earlier, number) {
        return Err("id");
    }
    Ok(VmId::new(number))
}

/// The tax of its own, which a machine may have in some versions.
fn tau_of(version: Version, table: &Table) -> Result<Option<u32>, &'static str>
    ensures exact { Tries (tau_in version (table_view table.now)) result }
    ensures good { IfOk result IsTax }
{
    if !version.has_own_taxes() {
        return Ok(None);
    }
    match given_number(table, "tau", 0, MAX_TAU as u64) {
        Ok(Some(tau)) => Ok(Some(tau as u32)),
        Ok(None) => Ok(None),
        Err(key) => Err(key),
    }
}

/// What a machine asks for.
fn spec_of(version: Version, table: &Table) -> Result<VmSpec, &'static str>
    ensures exact { Tries (spec_in version (table_view table.now)) result }
    ensures good { IfOk result IsGood }
{
    let min = required_number(table, "min", 1, MAX_PAGES as u64)?;
    let max = required_number(table, "max", min, MAX_PAGES as u64)?;
    let overhead = required_number(table, "overhead", 1, MAX_OVERHEAD as u64)?;
    let shares = required_number(table, "shares", 1, MAX_SHARES as u64)?;
    let balloon = required_number(table, "balloon", 0, max - min)?;
    let tau = tau_of(version, table)?;
    Ok(VmSpec {
        min: min as u32,
        max: max as u32,
        overhead: overhead as u32,
        shares: shares as u32,
        balloon_max: balloon as u32,
        tau,
    })
}

/// The lines of some values, if each is one.
fn lines_of(
    alloc: Global,
    size: u32,
    pages: u32,
    values: &[Value],
) -> Result<Option<Rows<TraceLine>>, AllocError>
    ensures exact { IfOk result (λ found. found ≡ lines_from size pages [] (items_view values.now)) }
    ensures within { IfOk result (λ found. IfSome found (λ lines. All (IsWithin size pages) lines × (length lines ≤ length values.now))) }
{
    let mut lines = Rows::new(alloc);
    for value in values {
        let Some(text) = value.as_str() else {
            return Ok(None);
        };
        let Some(line) = line_of_text(alloc, size, pages, text)? else {
            return Ok(None);
        };
        lines.push(line)?;
    }
    Ok(Some(lines))
}

/// The trace of the value at `trace`.
fn trace_of(
    alloc: Global,
    size: u32,
    pages: u32,
    value: Option<&Value>,
) -> Result<Option<Rows<TraceLine>>, AllocError>
    ensures exact { IfOk result (λ found. found ≡ trace_in size pages (option_map (λ v. view v.now) value.entry)) }
    ensures within { IfOk result (λ found. IfSome found (λ lines. All (IsWithin size pages) lines × (length lines ≤ MOST_LINES))) }
{
    let Some(value) = value else {
        return Ok(Some(Rows::new(alloc)));
    };
    match value.as_array() {
        Some(values) => {
            if values.len() <= MOST_LINES {
                lines_of(alloc, size, pages, values.as_slice())
            } else {
                Ok(None)
            }
        }
        None => Ok(None),
    }
}

/// The path under which the keys of the machine at a place stand.
pub fn path_of_guest(alloc: Global, place: usize) -> Result<String, AllocError>
    ensures { IfOk result (λ path. string_bytes path ≡ vm_path place) }
{
    format!(in alloc; "vm.{place}.")
}

/// The fault of a key of the machine at a place.
fn bad_vm_key(alloc: Global, place: usize, key: &str) -> TextFault
    ensures { Names (vm_path place ++ key.now) result }
{
    match format!(in alloc; "vm.{place}.{key}") {
        Ok(path) => TextFault::BadKey(path),
        Err(_) => TextFault::OutOfMemory,
    }
}

/// The machine of a table that stands behind others.
fn guest_of(
    alloc: Global,
    version: Version,
    site: &Config,
    earlier: &[Guest],
    table: &Table,
) -> Result<Guest, TextFault>
    ensures exact { Gives (guest_at version site.now earlier.now (table_view table.now)) result }
    ensures good { IfOk result (λ g. IsGuest site.now g × (has_number earlier.now g.vm ≡ false)) }
{
    let vm = match number_of_guest(version, earlier, table) {
        Ok(vm) => vm,
        Err(key) => return Err(bad_vm_key(alloc, earlier.len(), key)),
    };
    let spec = match spec_of(version, table) {
        Ok(spec) => spec,
        Err(key) => return Err(bad_vm_key(alloc, earlier.len(), key)),
    };
    match trace_of(alloc, site.page, spec.max, member(table, "trace")) {
        Ok(Some(trace)) => Ok(Guest { vm, spec, trace }),
        Ok(None) => Err(bad_vm_key(alloc, earlier.len(), "trace")),
        Err(_) => Err(TextFault::OutOfMemory),
    }
}

/// The machines of some tables.
fn guests_of_tables(
    alloc: Global,
    version: Version,
    site: &Config,
    values: &[Value],
) -> Result<Rows<Guest>, TextFault>
    ensures exact { Gives (guests_from version site.now [] (items_view values.now)) result }
    ensures good { IfOk result (λ gs. All (IsGuest site.now) gs × AreDistinct gs × (length gs ≤ length values.now)) }
{
    let mut guests = Rows::new(alloc);
    for value in values {
        let Some(table) = value.as_table() else {
            return Err(bad_key(alloc, "vm", ""));
        };
        let guest = guest_of(alloc, version, site, guests.as_slice(), table)?;
        if guests.push(guest).is_err() {
            return Err(TextFault::OutOfMemory);
        }
    }
    Ok(guests)
}

/// Whether all of some values are tables.
fn all_tables(values: &[Value]) -> bool
    ensures { result ≡ are_tables (items_view values.now) }
{
    for value in values {
        if !value.is_table() {
            return false;
        }
    }
    true
}

/// The machines of the value at `vm`.
pub fn guests_of(
    alloc: Global,
    version: Version,
    site: &Config,
    value: Option<&Value>,
) -> Result<Rows<Guest>, TextFault>
    ensures exact { Gives (guests_at version site.now (option_map (λ v. view v.now) value.entry)) result }
    ensures good { IfOk result (λ gs. All (IsGuest site.now) gs × AreDistinct gs × (length gs ≤ VM_NUMBERS)) }
{
    let Some(value) = value else {
        return Ok(Rows::new(alloc));
    };
    let Some(values) = value.as_array() else {
        return Err(bad_key(alloc, "vm", ""));
    };
    if values.len() > version.vm_numbers() || !all_tables(values.as_slice()) {
        return Err(bad_key(alloc, "vm", ""));
    }
    guests_of_tables(alloc, version, site, values.as_slice())
}
