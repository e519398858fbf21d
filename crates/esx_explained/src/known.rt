//! Lines of which nothing is to be explained.

ghost use Rattle.std.specs.Prelude.{◌≡◌, ◌<◌, ◌^◌, ◌∷◌, ◌↔◌, [], ℕ, IsTrue, IfSome, IfNone, decimal};
ghost use Rattle.std.specs.Bool.{OnTrue, OnFalse};
ghost use Rattle.esx_types.specs.declared.config.TheConstants.{VM_NUMBERS};
ghost use Rattle.esx_text.specs.Lines.{IsSilent};
ghost use Rattle.esx_text.specs.PageOut.{pageout_words};
ghost use Rattle.esx_explained.specs.Known.{IsOwn};

use esx_reading::Fields;
use esx_types::VmId;

/// Is it empty, or does it begin with `#`?
pub fn is_silent(line: &[u8]) -> bool
    ensures { IsTrue result ↔ IsSilent line.now }
{
    match line.first() {
        Some(byte) => *byte == b'#',
        None => true,
    }
}

/// A virtual machine and a page, where nothing else is left.
fn place(fields: &mut Fields) -> Option<(VmId, u32)>
    ensures some { IfSome result (λ p. (p.0 < VM_NUMBERS) × (p.1 < 2 ^ 32) × (fields.old ≡ decimal p.0 ∷ decimal p.1 ∷ [])) }
    ensures none { IfNone result ((n page : ℕ) → n < VM_NUMBERS → page < 2 ^ 32 → fields.old ≡ decimal n ∷ decimal page ∷ [] → ⊥) }
{
    let vm = fields.vm()?;
    let page = fields.number()?;
    if fields.is_empty() {
        Some((vm, page))
    } else {
        None
    }
}

/// The machine and the page that these words ask to go out, if they do.
fn asked_out(fields: &mut Fields) -> Option<(VmId, u32)>
    ensures some { IfSome result (λ p. (p.0 < VM_NUMBERS) × (p.1 < 2 ^ 32) × (fields.old ≡ pageout_words p.0 p.1)) }
    ensures none { IfNone result ((n page : ℕ) → n < VM_NUMBERS → page < 2 ^ 32 → fields.old ≡ pageout_words n page → ⊥) }
{
    let Some(word) = fields.next() else {
        return None;
    };
    if word != "pageout" {
        return None;
    }
    place(fields)
}

/// Is it the line of a word of the console alone, or one that asks that a page go out?
pub fn is_own(text: &str) -> bool
    ensures yes { OnTrue result (IsOwn text.now) }
    ensures no { OnFalse result (IsOwn text.now → ⊥) }
{
    if text == "session" {
        return true;
    }
    if text == "order" {
        return true;
    }
    match asked_out(&mut Fields::of(text)) {
        Some(_) => true,
        None => false,
    }
}
