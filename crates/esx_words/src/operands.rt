//! All that is left of a line, read as values of some kinds.

ghost use Rattle.std.specs.Prelude.{◌≡◌, ◌∷◌, [], ◌<◌, ◌≤◌, ◌^◌, decimal, ℕ, List, Option, IfSome, IfNone, IfOk, OnErr, length, map};
ghost use Rattle.std.specs.List.{AllByRecursion};
ghost use Rattle.hex.specs.Hex.{encode_lower};
ghost use Rattle.esx_types.specs.declared.config.TheConstants.{VM_NUMBERS};
ghost use Rattle.esx_events.specs.Names.{IsName};
ghost use Rattle.esx_reading.specs.Written.{IsWritten};
ghost use Rattle.esx_words.specs.Kinds.{TakeMemory, MayBeNumbers, perhaps_number, IsPerhapsNumber};
ghost use Rattle.esx_words.specs.Commands.{event_kinds};
ghost use Rattle.esx_words.specs.declared.verbs.EventVerb.TheVariants as events;

use esx_events::{Boxed, Name};
use esx_reading::{Fields, small_written_bytes};
use esx_types::{Rows, SmallBytes, VmId, VmSpec};
use std::alloc::{AllocError, Global};

/// A virtual machine alone.
pub fn machine(fields: &mut Fields) -> Option<VmId>
    ensures some { IfSome result (λ vm. (vm < VM_NUMBERS) × (fields.old ≡ decimal vm ∷ [])) }
    ensures none { IfNone result ((vm : ℕ) → vm < VM_NUMBERS → fields.old ≡ decimal vm ∷ [] → ⊥) }
{
    let vm = fields.vm()?;
    if fields.is_empty() { Some(vm) } else { None }
}

/// A number alone.
pub fn number(fields: &mut Fields) -> Option<u32>
    ensures some { IfSome result (λ n. fields.old ≡ decimal n ∷ []) }
    ensures none { IfNone result ((n : ℕ) → n < 2 ^ 32 → fields.old ≡ decimal n ∷ [] → ⊥) }
{
    let number = fields.number()?;
    if fields.is_empty() {
        Some(number)
    } else {
        None
    }
}

/// A virtual machine and a number.
pub fn place(fields: &mut Fields) -> Option<(VmId, u32)>
    ensures some { IfSome result (λ p. (p.0 < VM_NUMBERS) × (fields.old ≡ decimal p.0 ∷ decimal p.1 ∷ [])) }
    ensures none { IfNone result ((vm n : ℕ) → vm < VM_NUMBERS → n < 2 ^ 32 → fields.old ≡ decimal vm ∷ decimal n ∷ [] → ⊥) }
{
    let vm = fields.vm()?;
    let number = fields.number()?;
    if fields.is_empty() {
        Some((vm, number))
    } else {
        None
    }
}

/// A virtual machine and a word.
pub fn drawn(fields: &mut Fields) -> Option<(VmId, u64)>
    ensures some { IfSome result (λ p. (p.0 < VM_NUMBERS) × (fields.old ≡ decimal p.0 ∷ decimal p.1 ∷ [])) }
    ensures none { IfNone result ((vm w : ℕ) → vm < VM_NUMBERS → w < 2 ^ 64 → fields.old ≡ decimal vm ∷ decimal w ∷ [] → ⊥) }
{
    let vm = fields.vm()?;
    let word = fields.word()?;
    if fields.is_empty() {
        Some((vm, word))
    } else {
        None
    }
}

/// A virtual machine, a number and a word.
pub fn drawn_place(fields: &mut Fields) -> Option<(VmId, u32, u64)>
    ensures some { IfSome result (λ p. (p.0 < VM_NUMBERS) × (fields.old ≡ decimal p.0 ∷ decimal p.1 ∷ decimal p.2 ∷ [])) }
    ensures none { IfNone result ((vm n w : ℕ) → vm < VM_NUMBERS → n < 2 ^ 32 → w < 2 ^ 64
        → fields.old ≡ decimal vm ∷ decimal n ∷ decimal w ∷ [] → ⊥) }
{
    let vm = fields.vm()?;
    let number = fields.number()?;
    let word = fields.word()?;
    if fields.is_empty() {
        Some((vm, number, word))
    } else {
        None
    }
}

/// A virtual machine and three numbers.
pub fn range(fields: &mut Fields) -> Option<(VmId, u32, u32, u32)>
    ensures some { IfSome result (λ p. (p.0 < VM_NUMBERS) × (fields.old ≡ decimal p.0 ∷ decimal p.1 ∷ decimal p.2 ∷ decimal p.3 ∷ [])) }
    ensures none { IfNone result ((vm n m k : ℕ) → vm < VM_NUMBERS → n < 2 ^ 32 → m < 2 ^ 32 → k < 2 ^ 32
        → fields.old ≡ decimal vm ∷ decimal n ∷ decimal m ∷ decimal k ∷ [] → ⊥) }
{
    let vm = fields.vm()?;
    let (first, second) = fields.pair()?;
    let third = fields.number()?;
    if fields.is_empty() {
        Some((vm, first, second, third))
    } else {
        None
    }
}

/// A number, or nothing.
fn perhaps_number(fields: &mut Fields) -> Option<Option<u32>>
    ensures some { IfSome result (λ n. IsPerhapsNumber n × (fields.old ≡ perhaps_number n)) }
    ensures none { IfNone result ((n : Option ℕ) → IsPerhapsNumber n → fields.old ≡ perhaps_number n → ⊥) }
{
    if fields.is_empty() {
        return Some(None);
    }
    let number = number(fields)?;
    Some(Some(number))
}

/// A virtual machine and what it asks for.
pub fn spec(fields: &mut Fields) -> Option<(VmId, VmSpec)>
    ensures some { IfSome result (λ p. (p.0 < VM_NUMBERS) × IsPerhapsNumber p.1.tau
        × (fields.old ≡ decimal p.0 ∷ decimal p.1.min ∷ decimal p.1.max ∷ decimal p.1.overhead ∷ decimal p.1.shares ∷ decimal p.1.balloon_max
        ∷ perhaps_number p.1.tau)) }
    ensures none { IfNone result ((vm min max overhead shares balloon : ℕ) (tau : Option ℕ) → vm < VM_NUMBERS → min < 2 ^ 32 → max < 2 ^ 32
        → overhead < 2 ^ 32 → shares < 2 ^ 32 → balloon < 2 ^ 32 → IsPerhapsNumber tau
        → fields.old ≡ decimal vm ∷ decimal min ∷ decimal max ∷ decimal overhead ∷ decimal shares ∷ decimal balloon ∷ perhaps_number tau → ⊥) }
{
    let vm = fields.vm()?;
    let (min, max) = fields.pair()?;
    let (overhead, shares) = fields.pair()?;
    let balloon_max = fields.number()?;
    let tau = perhaps_number(fields)?;
    let spec = VmSpec {
        min,
        max,
        overhead,
        shares,
        balloon_max,
        tau,
    };
    Some((vm, spec))
}

/// A virtual machine, two numbers and the digits of some bytes.
fn digits<'a>(fields: &mut Fields<'a>) -> Option<(VmId, u32, u32, &'a str)>
    ensures some { IfSome result (λ p. (p.0 < VM_NUMBERS) × (fields.old ≡ decimal p.0 ∷ decimal p.1 ∷ decimal p.2 ∷ p.3.now ∷ [])) }
    ensures none { IfNone result ((vm n m : ℕ) (text : List ℕ) → vm < VM_NUMBERS → n < 2 ^ 32 → m < 2 ^ 32
        → fields.old ≡ decimal vm ∷ decimal n ∷ decimal m ∷ text ∷ [] → ⊥) }
{
    let vm = fields.vm()?;
    let (first, second) = fields.pair()?;
    let text = fields.only()?;
    Some((vm, first, second, text))
}

/// A virtual machine, two numbers and bytes.
pub fn written(
    alloc: Global,
    fields: &mut Fields,
) -> Result<Option<(VmId, u32, u32, SmallBytes)>, AllocError>
    ensures found { IfOk result (λ found. IfSome found (λ p. (p.0 < VM_NUMBERS) × IsWritten p.3
        × (fields.old ≡ decimal p.0 ∷ decimal p.1 ∷ decimal p.2 ∷ encode_lower p.3 ∷ []))) }
    ensures only { IfOk result (λ found. IfNone found ((vm n m : ℕ) (bytes : List ℕ) → vm < VM_NUMBERS → n < 2 ^ 32 → m < 2 ^ 32 → IsWritten bytes
        → fields.old ≡ decimal vm ∷ decimal n ∷ decimal m ∷ encode_lower bytes ∷ [] → ⊥)) }
    ensures memory { OnErr result (TakeMemory (event_kinds events.Write) fields.old) }
{
    let Some((vm, first, second, text)) = digits(fields) else {
        return Ok(None);
    };
    match small_written_bytes(alloc, text)? {
        Some(bytes) => Ok(Some((vm, first, second, bytes))),
        None => Ok(None),
    }
}

/// A name alone.
pub fn name(alloc: Global, fields: &mut Fields) -> Result<Option<Name>, AllocError>
    ensures found { IfOk result (λ found. IfSome found (λ name. IsName name × (fields.old ≡ name ∷ []))) }
    ensures only { IfOk result (λ found. IfNone found ((name : List ℕ) → IsName name → fields.old ≡ name ∷ [] → ⊥)) }
    ensures memory { OnErr result ((name : List ℕ) × IsName name × (fields.old ≡ name ∷ [])) }
{
    match fields.only() {
        Some(text) => Name::new(alloc, text),
        None => Ok(None),
    }
}

/// The most words of a sample.
const MAX_WORDS: usize = 200;

/// Words to the end of the line.
fn words(alloc: Global, fields: &mut Fields) -> Result<Option<Vec<u64>>, AllocError>
    ensures found { IfOk result (λ found. IfSome found (λ words. (length words.items ≤ MAX_WORDS) × AllByRecursion (λ w. w < 2 ^ 64) words.items
        × (fields.old ≡ map decimal words.items))) }
    ensures only { IfOk result (λ found. IfNone found ((words : List ℕ) → length words ≤ MAX_WORDS → AllByRecursion (λ w. w < 2 ^ 64) words
        → fields.old ≡ map decimal words → ⊥)) }
    ensures memory { OnErr result (MayBeNumbers fields.old) }
{
    let mut words = Vec::new(alloc);
    while !fields.is_empty() {
        let Some(word) = fields.word() else {
            return Ok(None);
        };
        if words.len() == MAX_WORDS {
            return Ok(None);
        }
        words.push(word)?;
    }
    Ok(Some(words))
}

/// A virtual machine, a number and words.
pub fn sampled(
    alloc: Global,
    fields: &mut Fields,
) -> Result<Option<(VmId, u32, Boxed<Rows<u64>>)>, AllocError>
    ensures found { IfOk result (λ found. IfSome found (λ p. (p.0 < VM_NUMBERS) × (length p.2 ≤ MAX_WORDS) × AllByRecursion (λ w. w < 2 ^ 64) p.2
        × (fields.old ≡ decimal p.0 ∷ decimal p.1 ∷ map decimal p.2))) }
    ensures only { IfOk result (λ found. IfNone found ((vm n : ℕ) (words : List ℕ) → vm < VM_NUMBERS → n < 2 ^ 32
        → length words ≤ MAX_WORDS → AllByRecursion (λ w. w < 2 ^ 64) words
        → fields.old ≡ decimal vm ∷ decimal n ∷ map decimal words → ⊥)) }
    ensures memory { OnErr result (TakeMemory (event_kinds events.Sample) fields.old) }
{
    let Some(vm) = fields.vm() else {
        return Ok(None);
    };
    let Some(number) = fields.number() else {
        return Ok(None);
    };
    let Some(words) = words(alloc, fields)? else {
        return Ok(None);
    };
    let words = Boxed::new(alloc, Rows::from_vec(words))?;
    Ok(Some((vm, number, words)))
}
