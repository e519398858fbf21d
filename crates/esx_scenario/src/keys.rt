//! Keys of a table, and the paths under which they are reported.

ghost use Rattle.std.specs.Prelude.{◌≡◌, ◌≤◌, ◌++◌, IfOk, IfSome, option_map};
ghost use Rattle.toml.specs.Data.{get_member, as_table};
ghost use Rattle.toml.specs.View.{view, table_view};
ghost use Rattle.esx_scenario.specs.Keys.{integer_within, within, required, optional, given, table_at, Tries, Names};

use esx_reading::TextFault;
use std::alloc::Global;
use toml::{Table, Value};

/// The value at a key.
pub fn member<'a>(table: &'a Table, key: &str) -> Option<&'a Value>
    ensures { option_map (λ v. view v.now) result ≡ get_member key.now (table_view table.now) }
{
    table.get(key)
}

/// The table at a key.
pub fn table_of<'a>(table: &'a Table, key: &str) -> Option<&'a Table>
    ensures { option_map (λ t. table_view t.now) result ≡ table_at (table_view table.now) key.now }
{
    member(table, key)?.as_table()
}

/// The number, if it is in the range.
fn in_range(number: i64, least: u64, most: u64) -> Option<u64>
    ensures exact { result ≡ integer_within least most number }
    ensures range { IfSome result (λ n. (least ≤ n) × (n ≤ most)) }
{
    let number = u64::try_from(number).ok()?;
    if least <= number && number <= most {
        Some(number)
    } else {
        None
    }
}

/// The value's integer, if it is in the range.
fn number_within(value: &Value, least: u64, most: u64) -> Option<u64>
    ensures exact { result ≡ within least most (view value.now) }
    ensures range { IfSome result (λ n. (least ≤ n) × (n ≤ most)) }
{
    let number = value.as_integer()?;
    in_range(number, least, most)
}

/// The integer of a key that has to be there.
pub fn required_number(
    table: &Table,
    key: &'static str,
    least: u64,
    most: u64,
) -> Result<u64, &'static str>
    ensures exact { Tries (required (table_view table.now) key.now least most) result }
    ensures range { IfOk result (λ n. (least ≤ n) × (n ≤ most)) }
{
    match member(table, key) {
        Some(value) => number_within(value, least, most).ok_or(key),
        None => Err(key),
    }
}

/// The integer of a key that may be left out.
pub fn optional_number(
    table: &Table,
    key: &'static str,
    least: u64,
    most: u64,
    default: u64,
) -> Result<u64, &'static str>
    ensures exact { Tries (optional (table_view table.now) key.now least most default) result }
    ensures range { IfOk result (λ n. (least ≤ n) × (n ≤ most)) }
{
    match member(table, key) {
        Some(value) => number_within(value, least, most).ok_or(key),
        None => {
            if least <= default && default <= most {
                Ok(default)
            } else {
                Err(key)
            }
        }
    }
}

/// The integer of a key that may be left out, if it is there.
pub fn given_number(
    table: &Table,
    key: &'static str,
    least: u64,
    most: u64,
) -> Result<Option<u64>, &'static str>
    ensures exact { Tries (given (table_view table.now) key.now least most) result }
    ensures range { IfOk result (λ found. IfSome found (λ n. (least ≤ n) × (n ≤ most))) }
{
    let Some(value) = member(table, key) else {
        return Ok(None);
    };
    let Some(number) = number_within(value, least, most) else {
        return Err(key);
    };
    Ok(Some(number))
}

/// The fault of a key of the table that stands under a path.
pub fn bad_key(alloc: Global, prefix: &str, key: &str) -> TextFault
    ensures { Names (prefix.now ++ key.now) result }
{
    match format!(in alloc; "{prefix}{key}") {
        Ok(path) => TextFault::BadKey(path),
        Err(_) => TextFault::OutOfMemory,
    }
}
