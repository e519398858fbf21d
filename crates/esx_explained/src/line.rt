//! Why a line is no command.

ghost use Rattle.std.specs.Prelude.{IfOk, IfSome, IfNone, OnErr};
ghost use Rattle.std.specs.Str.{IsUtf8};
ghost use Rattle.esx_words.specs.Commands.{MayTakeMemory};
ghost use Rattle.esx_text.specs.Lines.{IsSilent};
ghost use Rattle.esx_explained.specs.Known.{IsKnown};
ghost use Rattle.esx_explained.specs.Reasons.{Explains};

use crate::known::{is_own, is_silent};
use crate::reason::{Explanation, reason};
use esx_text::LONGEST;
use esx_words::parse_command;
use std::alloc::{AllocError, Global};

/// The same of a text that is not silent.
fn explained_text(alloc: Global, text: &str) -> Result<Option<Explanation<'_>>, AllocError>
    requires { IsSilent text.now → ⊥ }
    ensures none { IfOk result (λ found. IfNone found (IsKnown text.now)) }
    ensures told { IfOk result (λ found. IfSome found (λ e. (IsKnown text.now → ⊥) × Explains text.now e)) }
    ensures memory { OnErr result (MayTakeMemory text.now) }
{
    if is_own(text) {
        return Ok(None);
    }
    if text.len() > LONGEST {
        return Ok(Some(Explanation::TooLong));
    }
    match parse_command(alloc, text)? {
        Some(_call) => Ok(None),
        None => Ok(Some(reason(text))),
    }
}

/// What is amiss with a line that is not UTF-8. Of one that is too long a letter may be cut.
fn no_text(line: &[u8]) -> Explanation<'static>
    requires { IsUtf8 line.now → ⊥ }
    ensures { Explains line.now result }
{
    if line.len() > LONGEST {
        return Explanation::TooLong;
    }
    Explanation::NotText
}

/// Why a line is no command: `None` where it is one, or a word of the console alone, or silent (empty, or one that begins
/// with `#`). Whether it is a command is asked of the parser that the console asks, which may take memory for it.
pub fn explained(alloc: Global, line: &[u8]) -> Result<Option<Explanation<'_>>, AllocError>
    ensures none { IfOk result (λ found. IfNone found (IsKnown line.now)) }
    ensures told { IfOk result (λ found. IfSome found (λ e. (IsKnown line.now → ⊥) × Explains line.now e)) }
    ensures memory { OnErr result (MayTakeMemory line.now) }
{
    if is_silent(line) {
        return Ok(None);
    }
    match str::from_utf8(line) {
        Ok(text) => explained_text(alloc, text),
        Err(_) => Ok(Some(no_text(line))),
    }
}
