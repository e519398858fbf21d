//! The lines of a session, each alone.

ghost use Rattle.std.specs.Prelude.{◌≡◌, ◌∷◌, ◌++◌, ◌<◌, ◌↔◌, ℕ, List, codes, decimal, MatchOption, IfSome, IfNone, IfOk, OnErr, IsTrue};
ghost use Rattle.esx_types.specs.Versions.{callers};
ghost use Rattle.esx_events.specs.declared.call.Call.{Call};
ghost use Rattle.esx_reading.specs.Fields.{fields};
ghost use Rattle.esx_session.specs.Reading.{SpellsCall, CallTakesMemory, Quotes, QuotesNone};

use esx_events::{Call, has_call};
use esx_reading::{Fields, number_of};
use esx_types::Version;
use esx_words::parse_command;
use std::alloc::{AllocError, Global};

/// The number of a caller of a version.
fn caller_of(version: Version, text: &str) -> Option<u16>
    ensures some { IfSome result (λ n. (n < callers version) × (text.now ≡ decimal n)) }
    ensures none { IfNone result ((n : ℕ) → n < callers version → text.now ≡ decimal n → ⊥) }
{
    let number = number_of(text)?;
    if number < version.callers() as u64 {
        Some(number as u16)
    } else {
        None
    }
}

/// The first field of a line, and the text behind it.
fn parted<'a>(line: &'a str) -> Option<(&'a str, &'a str)>
    ensures cut { IfSome result (λ p. fields line.now ≡ p.0.now ∷ fields p.1.now) }
    ensures whole { IfSome result (λ p. line.now ≡ p.0.now ++ 32 ∷ p.1.now) }
    ensures none { IfNone result ((number command : List ℕ) → fields line.now ≡ number ∷ fields command → ⊥) }
{
    let mut fields = Fields::of(line);
    let number = fields.next()?;
    let command = fields.rest()?;
    Some((number, command))
}

/// Who called, and the call. `None` if the line is not that of a call in this version.
pub fn call_of(
    alloc: Global,
    version: Version,
    line: &str,
) -> Result<Option<(u16, Call)>, AllocError>
    ensures found { IfOk result (λ found. IfSome found (λ p. SpellsCall version line.now p.0 p.1)) }
    ensures only { IfOk result (λ found. IfNone found ((caller : ℕ) (call : Call) → SpellsCall version line.now caller call → ⊥)) }
    ensures memory { OnErr result (CallTakesMemory version line.now) }
{
    let Some((number, command)) = parted(line) else {
        return Ok(None);
    };
    let Some(caller) = caller_of(version, number) else {
        return Ok(None);
    };
    let Some(call) = parse_command(alloc, command)? else {
        return Ok(None);
    };
    if !has_call(version, &call) {
        return Ok(None);
    }
    Ok(Some((caller, call)))
}

/// What a line says of a reply.
pub fn reply_of(line: &str) -> Option<&str>
    ensures { MatchOption result (QuotesNone line.now) (λ text. Quotes line.now text.now) }
{
    let text = line.strip_prefix("= ")?;
    if text.is_ascii() { Some(text) } else { None }
}

/// Whether the line is the last of a session of so many calls.
pub fn is_end(line: &str, count: u64) -> bool
    ensures { IsTrue result ↔ (line.now ≡ codes "end " ++ decimal count) }
{
    match line.strip_prefix("end ") {
        Some(number) => number_of(number) == Some(count),
        None => false,
    }
}
