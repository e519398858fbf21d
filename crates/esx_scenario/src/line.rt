//! Lines of a trace.

ghost use Rattle.std.specs.Prelude.{◌≡◌, ◌<◌, ◌^◌, ◌∷◌, [], ℕ, List, IfOk, IfSome, IfNone, decimal};
ghost use Rattle.esx_scenario.specs.Lines.{IsWithin, ask_in, bytes_in, is_within, lend_in, line_in, line_of, read_in, take_back_in, write_in};

use crate::plan::TraceLine;
use esx_reading::{Fields, small_written_bytes};
use esx_types::SmallBytes;
use std::alloc::{AllocError, Global};

/// The bytes of a field, 1 to `MAX_PAGE` of them.
fn bytes_of_field(alloc: Global, field: &str) -> Result<Option<SmallBytes>, AllocError>
    ensures { IfOk result (λ found. found ≡ bytes_in field.now) }
{
    small_written_bytes(alloc, field)
}

/// The number of 32 bits that is the only field left.
fn only_number(fields: &mut Fields) -> Option<u32>
    ensures some { IfSome result (λ n. fields.old ≡ decimal n ∷ []) }
    ensures none { IfNone result ((n : ℕ) → n < 2 ^ 32 → fields.old ≡ decimal n ∷ [] → ⊥) }
{
    let number = fields.number()?;
    if fields.is_empty() {
        Some(number)
    } else {
        None
    }
}

/// The operands of `read`.
fn read_of(fields: &mut Fields) -> Option<TraceLine>
    ensures { result ≡ read_in fields.old }
{
    let (page, at) = fields.pair()?;
    let len = fields.number()?;
    if fields.is_empty() {
        Some(TraceLine::Read { page, at, len })
    } else {
        None
    }
}

/// Two numbers of 32 bits and the only field behind them.
fn place_and_digits<'a>(fields: &mut Fields<'a>) -> Option<(u32, u32, &'a str)>
    ensures some { IfSome result (λ p. (p.0 < 2 ^ 32) × (p.1 < 2 ^ 32) × (fields.old ≡ decimal p.0 ∷ decimal p.1 ∷ p.2.now ∷ [])) }
    ensures none { IfNone result ((n m : ℕ) (text : List ℕ) → n < 2 ^ 32 → m < 2 ^ 32 → fields.old ≡ decimal n ∷ decimal m ∷ text ∷ [] → ⊥) }
{
    let (page, at) = fields.pair()?;
    let digits = fields.only()?;
    Some((page, at, digits))
}

/// The operands of `write`.
fn write_of(alloc: Global, fields: &mut Fields) -> Result<Option<TraceLine>, AllocError>
    ensures { IfOk result (λ found. found ≡ write_in fields.old) }
{
    let Some((page, at, digits)) = place_and_digits(fields) else {
        return Ok(None);
    };
    match bytes_of_field(alloc, digits)? {
        Some(bytes) => Ok(Some(TraceLine::Write { page, at, bytes })),
        None => Ok(None),
    }
}

/// `ask` has no operands.
fn ask_of(fields: &mut Fields) -> Option<TraceLine>
    ensures { result ≡ ask_in fields.old }
{
    if fields.is_empty() {
        Some(TraceLine::Ask)
    } else {
        None
    }
}

/// The operand of `lend`.
fn lend_of(fields: &mut Fields) -> Option<TraceLine>
    ensures { result ≡ lend_in fields.old }
{
    let page = only_number(fields)?;
    Some(TraceLine::Lend { page })
}

/// The operand of `takeback`.
fn take_back_of(fields: &mut Fields) -> Option<TraceLine>
    ensures { result ≡ take_back_in fields.old }
{
    let page = only_number(fields)?;
    Some(TraceLine::TakeBack { page })
}

/// The line of some fields.
fn line_of_fields(alloc: Global, fields: &mut Fields) -> Result<Option<TraceLine>, AllocError>
    ensures { IfOk result (λ found. found ≡ line_in fields.old) }
{
    let Some(verb) = fields.next() else {
        return Ok(None);
    };
    match verb {
        "read" => Ok(read_of(fields)),
        "write" => write_of(alloc, fields),
        "ask" => Ok(ask_of(fields)),
        "lend" => Ok(lend_of(fields)),
        "takeback" => Ok(take_back_of(fields)),
        _ => Ok(None),
    }
}

/// Whether a line stays within a page of that size, and within that many pages.
fn stays_within(line: &TraceLine, size: u32, pages: u32) -> bool
    ensures { result ≡ is_within size pages line.now }
{
    match line {
        TraceLine::Read { page, at, len } => {
            *page < pages && 1 <= *len && u64::from(*at) + u64::from(*len) <= u64::from(size)
        }
        TraceLine::Write { page, at, bytes } => {
            let len = bytes.len();
            *page < pages && 1 <= len && *at <= size && len <= (size - *at) as usize
        }
        TraceLine::Ask => true,
        TraceLine::Lend { page } | TraceLine::TakeBack { page } => *page < pages,
    }
}

/// The trace line of a text, for a page size and a number of pages.
pub fn line_of_text(
    alloc: Global,
    size: u32,
    pages: u32,
    text: &str,
) -> Result<Option<TraceLine>, AllocError>
    ensures exact { IfOk result (λ found. found ≡ line_of size pages text.now) }
    ensures within { IfOk result (λ found. IfSome found (IsWithin size pages)) }
{
    let Some(line) = line_of_fields(alloc, &mut Fields::of(text))? else {
        return Ok(None);
    };
    if stays_within(&line, size, pages) {
        Ok(Some(line))
    } else {
        Ok(None)
    }
}
