//! Files, read whole.

ghost use Rattle.std.specs.Prelude.{◌≡◌, ◌+◌, ◌≤◌, ◌⊎◌, ℕ, List, length, string_bytes, IfOk, IfErr, OnOk, OnErr, IsErrOf, IsUtf8};
ghost use Rattle.std.specs.Io.KnownBytes.{Consumes};
ghost use Rattle.esx_reading.specs.Whole.{AskForPieces, GivesWhole, GivesMore, GivesOn, GivesWithin, GivesMoreThan, GivesOnWithin, IsOfReading, IsOfText};

use crate::fault::TextFault;
use esx_types::Source;
use std::alloc::Global;

/// The most bytes that a file may have.
pub const MAX_FILE: usize = 1 << 26;

/// The most bytes that a session may have of which a report is made.
pub const MAX_SESSION: usize = 1 << 32;

/// How often a file is read from at most.
pub const READS: u32 = 1 << 26;

/// How many bytes are asked for at once.
pub const CHUNK: usize = 1 << 16;

/// What a source gives, through a room for what is read, of at most so many bytes.
fn read_through<R: Source>(
    alloc: Global,
    source: &mut R,
    chunk: &mut [u8],
    most: usize,
) -> Result<Vec<u8>, TextFault>
    requires { length chunk.old ≡ CHUNK }
    ensures ok { IfOk result (λ v. GivesWithin most (R.remaining source.old) (R.remaining source.new) v.items) }
    ensures fault { IfErr result IsOfReading }
    ensures reads { R.calls source.new ≤ R.calls source.old + READS }
    ensures pieces { AskForPieces (R.calls source.old) (R.calls source.new) (R.asked source.old) (R.asked source.new) }
    ensures read { IsErrOf result TextFault.Read
        → (R.failures source.new ≡ R.failures source.old + 1)
        ⊎ ((R.failures source.new ≡ R.failures source.old)
        × ((R.calls source.new ≡ R.calls source.old + READS) ⊎ GivesMoreThan most (R.remaining source.old) (R.remaining source.new))) }
    ensures no_read_fault { (IsErrOf result TextFault.Read → ⊥) → R.failures source.new ≡ R.failures source.old }

    // One read gave nothing where the end was found, and none did elsewhere.
    ensures found { OnOk result (R.empty_reads source.new ≡ R.empty_reads source.old + 1) }
    ensures not_found { OnErr result (R.empty_reads source.new ≡ R.empty_reads source.old) }

    // Each read gave a byte at least, but for the last where it failed or found the end. Where memory ran out
    // no read found it, and another one was to come.
    ensures end { IfOk result (λ v. R.calls source.new ≤ R.calls source.old + length v.items + 1) }
    ensures each { IsErrOf result TextFault.Read → (bytes : List ℕ) × Consumes (R.remaining source.old) (R.remaining source.new) bytes
        × (R.calls source.new ≤ R.calls source.old + length bytes + 1) }
    ensures memory { IsErrOf result TextFault.OutOfMemory
        → GivesOnWithin most (R.remaining source.old) (R.remaining source.new) (R.calls source.old) (R.calls source.new) }
{
    let mut bytes = Vec::new(alloc);
    for _ in 0..READS {
        // Room comes first, so that what is read is kept.
        if bytes.reserve(CHUNK).is_err() {
            return Err(TextFault::OutOfMemory);
        }
        let Ok(given) = source.read(chunk) else {
            return Err(TextFault::Read);
        };
        if given == 0 {
            return Ok(bytes);
        }
        if given > most - bytes.len() {
            return Err(TextFault::Read);
        }
        let (front, _) = chunk.split_at(given);
        bytes.extend_from_slice(front).unwrap();
    }
    Err(TextFault::Read)
}

/// All bytes of a file of at most so many.
fn read_whole_within<R: Source>(
    alloc: Global,
    source: &mut R,
    most: usize,
) -> Result<Vec<u8>, TextFault>
    ensures ok { IfOk result (λ v. GivesWithin most (R.remaining source.old) (R.remaining source.new) v.items) }
    ensures fault { IfErr result IsOfReading }
    ensures reads { R.calls source.new ≤ R.calls source.old + READS }
    ensures pieces { AskForPieces (R.calls source.old) (R.calls source.new) (R.asked source.old) (R.asked source.new) }
    ensures read { IsErrOf result TextFault.Read
        → (R.failures source.new ≡ R.failures source.old + 1)
        ⊎ ((R.failures source.new ≡ R.failures source.old)
        × ((R.calls source.new ≡ R.calls source.old + READS) ⊎ GivesMoreThan most (R.remaining source.old) (R.remaining source.new))) }
    ensures no_read_fault { (IsErrOf result TextFault.Read → ⊥) → R.failures source.new ≡ R.failures source.old }

    // One read gave nothing where the end was found, and none did elsewhere.
    ensures found { OnOk result (R.empty_reads source.new ≡ R.empty_reads source.old + 1) }
    ensures not_found { OnErr result (R.empty_reads source.new ≡ R.empty_reads source.old) }

    // Each read gave a byte at least, but for the last where it failed or found the end. Where memory ran out
    // no read found it, and another one was to come.
    ensures end { IfOk result (λ v. R.calls source.new ≤ R.calls source.old + length v.items + 1) }
    ensures each { IsErrOf result TextFault.Read → (bytes : List ℕ) × Consumes (R.remaining source.old) (R.remaining source.new) bytes
        × (R.calls source.new ≤ R.calls source.old + length bytes + 1) }
    ensures memory { IsErrOf result TextFault.OutOfMemory
        → GivesOnWithin most (R.remaining source.old) (R.remaining source.new) (R.calls source.old) (R.calls source.new) }
{
    let Ok(mut chunk) = vec![in alloc; 0u8; CHUNK] else {
        return Err(TextFault::OutOfMemory);
    };
    read_through(alloc, source, &mut chunk, most)
}

/// All bytes of a file.
///
/// `Read` comes where the source failed, where it gave more than `MAX_FILE` bytes, or where it gave no end in
/// `READS` reads, and there is no other fault but want of memory.
pub fn read_whole<R: Source>(alloc: Global, source: &mut R) -> Result<Vec<u8>, TextFault>
    ensures ok { IfOk result (λ v. GivesWhole (R.remaining source.old) (R.remaining source.new) v.items) }
    ensures fault { IfErr result IsOfReading }
    ensures reads { R.calls source.new ≤ R.calls source.old + READS }
    ensures pieces { AskForPieces (R.calls source.old) (R.calls source.new) (R.asked source.old) (R.asked source.new) }
    ensures read { IsErrOf result TextFault.Read
        → (R.failures source.new ≡ R.failures source.old + 1)
        ⊎ ((R.failures source.new ≡ R.failures source.old)
        × ((R.calls source.new ≡ R.calls source.old + READS) ⊎ GivesMore (R.remaining source.old) (R.remaining source.new))) }
    ensures no_read_fault { (IsErrOf result TextFault.Read → ⊥) → R.failures source.new ≡ R.failures source.old }

    // One read gave nothing where the end was found, and none did elsewhere.
    ensures found { OnOk result (R.empty_reads source.new ≡ R.empty_reads source.old + 1) }
    ensures not_found { OnErr result (R.empty_reads source.new ≡ R.empty_reads source.old) }

    // Each read gave a byte at least, but for the last where it failed or found the end. Where memory ran out
    // no read found it, and another one was to come.
    ensures end { IfOk result (λ v. R.calls source.new ≤ R.calls source.old + length v.items + 1) }
    ensures each { IsErrOf result TextFault.Read → (bytes : List ℕ) × Consumes (R.remaining source.old) (R.remaining source.new) bytes
        × (R.calls source.new ≤ R.calls source.old + length bytes + 1) }
    ensures memory { IsErrOf result TextFault.OutOfMemory
        → GivesOn (R.remaining source.old) (R.remaining source.new) (R.calls source.old) (R.calls source.new) }
{
    read_whole_within(alloc, source, MAX_FILE)
}

/// The text of a file of at most so many bytes: `Read` comes where it has more, and else as from `read_text`.
pub fn read_text_within<R: Source>(
    alloc: Global,
    source: &mut R,
    most: usize,
) -> Result<String, TextFault>
    ensures ok { IfOk result (λ s. GivesWithin most (R.remaining source.old) (R.remaining source.new) (string_bytes s)) }
    ensures not_text { IsErrOf result TextFault.NotText
        → (bytes : List ℕ) × GivesWithin most (R.remaining source.old) (R.remaining source.new) bytes × (IsUtf8 bytes → ⊥)
        × (R.calls source.new ≤ R.calls source.old + length bytes + 1) }
    ensures fault { IfErr result IsOfText }
    ensures reads { R.calls source.new ≤ R.calls source.old + READS }
    ensures pieces { AskForPieces (R.calls source.old) (R.calls source.new) (R.asked source.old) (R.asked source.new) }
    ensures read { IsErrOf result TextFault.Read
        → (R.failures source.new ≡ R.failures source.old + 1)
        ⊎ ((R.failures source.new ≡ R.failures source.old)
        × ((R.calls source.new ≡ R.calls source.old + READS) ⊎ GivesMoreThan most (R.remaining source.old) (R.remaining source.new))) }
    ensures no_read_fault { (IsErrOf result TextFault.Read → ⊥) → R.failures source.new ≡ R.failures source.old }

    // One read gave nothing where the end was found, and none did elsewhere.
    ensures found { OnOk result (R.empty_reads source.new ≡ R.empty_reads source.old + 1) }
    ensures found_no_text { IsErrOf result TextFault.NotText → R.empty_reads source.new ≡ R.empty_reads source.old + 1 }
    ensures not_found { IsErrOf result TextFault.Read → R.empty_reads source.new ≡ R.empty_reads source.old }
    ensures not_found_in_memory { IsErrOf result TextFault.OutOfMemory → R.empty_reads source.new ≡ R.empty_reads source.old }

    // Each read gave a byte at least, but for the last where it failed or found the end. Where memory ran out
    // no read found it, and another one was to come.
    ensures end { IfOk result (λ s. R.calls source.new ≤ R.calls source.old + length (string_bytes s) + 1) }
    ensures each { IsErrOf result TextFault.Read → (bytes : List ℕ) × Consumes (R.remaining source.old) (R.remaining source.new) bytes
        × (R.calls source.new ≤ R.calls source.old + length bytes + 1) }
    ensures memory { IsErrOf result TextFault.OutOfMemory
        → GivesOnWithin most (R.remaining source.old) (R.remaining source.new) (R.calls source.old) (R.calls source.new) }
{
    let bytes = read_whole_within(alloc, source, most)?;
    match String::from_utf8(bytes) {
        Ok(text) => Ok(text),
        Err(_) => Err(TextFault::NotText),
    }
}

/// A file's text. As `read_whole`, and `NotText` where its bytes are not UTF-8.
pub fn read_text<R: Source>(alloc: Global, source: &mut R) -> Result<String, TextFault>
    ensures ok { IfOk result (λ s. GivesWhole (R.remaining source.old) (R.remaining source.new) (string_bytes s)) }
    ensures not_text { IsErrOf result TextFault.NotText
        → (bytes : List ℕ) × GivesWhole (R.remaining source.old) (R.remaining source.new) bytes × (IsUtf8 bytes → ⊥)
        × (R.calls source.new ≤ R.calls source.old + length bytes + 1) }
    ensures fault { IfErr result IsOfText }
    ensures reads { R.calls source.new ≤ R.calls source.old + READS }
    ensures pieces { AskForPieces (R.calls source.old) (R.calls source.new) (R.asked source.old) (R.asked source.new) }
    ensures read { IsErrOf result TextFault.Read
        → (R.failures source.new ≡ R.failures source.old + 1)
        ⊎ ((R.failures source.new ≡ R.failures source.old)
        × ((R.calls source.new ≡ R.calls source.old + READS) ⊎ GivesMore (R.remaining source.old) (R.remaining source.new))) }
    ensures no_read_fault { (IsErrOf result TextFault.Read → ⊥) → R.failures source.new ≡ R.failures source.old }

    // One read gave nothing where the end was found, and none did elsewhere.
    ensures found { OnOk result (R.empty_reads source.new ≡ R.empty_reads source.old + 1) }
    ensures found_no_text { IsErrOf result TextFault.NotText → R.empty_reads source.new ≡ R.empty_reads source.old + 1 }
    ensures not_found { IsErrOf result TextFault.Read → R.empty_reads source.new ≡ R.empty_reads source.old }
    ensures not_found_in_memory { IsErrOf result TextFault.OutOfMemory → R.empty_reads source.new ≡ R.empty_reads source.old }

    // Each read gave a byte at least, but for the last where it failed or found the end. Where memory ran out
    // no read found it, and another one was to come.
    ensures end { IfOk result (λ s. R.calls source.new ≤ R.calls source.old + length (string_bytes s) + 1) }
    ensures each { IsErrOf result TextFault.Read → (bytes : List ℕ) × Consumes (R.remaining source.old) (R.remaining source.new) bytes
        × (R.calls source.new ≤ R.calls source.old + length bytes + 1) }
    ensures memory { IsErrOf result TextFault.OutOfMemory
        → GivesOn (R.remaining source.old) (R.remaining source.new) (R.calls source.old) (R.calls source.new) }
{
    read_text_within(alloc, source, MAX_FILE)
}
