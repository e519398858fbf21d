//! Bytes as pairs of hex digits.

ghost use Rattle.std.specs.Prelude.{◌≡◌, ◌∷◌, ◌<◌, ◌≤◌, ◌*◌, ◌/◌, ◌%◌, [], ℕ, List, length, slice_index, IfSome, IfNone, IfOk, OnErr};
ghost use Rattle.std.specs.Bool.{OnTrue, OnFalse};
ghost use Rattle.hex.specs.Hex.{encode_lower, lower_digits, IsBytes};
ghost use Rattle.esx_reading.specs.Written.{IsWritten};

use crate::hex_digits::eight_bytes;
use esx_types::{Bytes, FEW, MAX_PAGE, SmallBytes};
use std::alloc::{AllocError, Global};

/// The most digits of bytes in hex: two for each byte of the largest page.
pub const MAX_DIGITS: usize = 2 * MAX_PAGE as usize;

/// Stands for a byte that is no digit.
const NONE: u16 = 256;

/// What each byte is worth as the first of two digits in hex, in lower case. The pairs that are left over behind the last
/// sixteen digits are read by this table and the next; most fields are shorter than that.
const HIGH: [u16; 256] = [
    NONE, NONE, NONE, NONE, NONE, NONE, NONE, NONE, NONE, NONE, NONE, NONE, NONE, NONE, NONE, NONE,
    NONE, NONE, NONE, NONE, NONE, NONE, NONE, NONE, NONE, NONE, NONE, NONE, NONE, NONE, NONE, NONE,
    NONE, NONE, NONE, NONE, NONE, NONE, NONE, NONE, NONE, NONE, NONE, NONE, NONE, NONE, NONE, NONE,
    0, 16, 32, 48, 64, 80, 96, 112, 128, 144, NONE, NONE, NONE, NONE, NONE, NONE, NONE, NONE, NONE,
    NONE, NONE, NONE, NONE, NONE, NONE, NONE, NONE, NONE, NONE, NONE, NONE, NONE, NONE, NONE, NONE,
    NONE, NONE, NONE, NONE, NONE, NONE, NONE, NONE, NONE, NONE, NONE, NONE, NONE, NONE, 160, 176,
    192, 208, 224, 240, NONE, NONE, NONE, NONE, NONE, NONE, NONE, NONE, NONE, NONE, NONE, NONE,
    NONE, NONE, NONE, NONE, NONE, NONE, NONE, NONE, NONE, NONE, NONE, NONE, NONE, NONE, NONE, NONE,
    NONE, NONE, NONE, NONE, NONE, NONE, NONE, NONE, NONE, NONE, NONE, NONE, NONE, NONE, NONE, NONE,
    NONE, NONE, NONE, NONE, NONE, NONE, NONE, NONE, NONE, NONE, NONE, NONE, NONE, NONE, NONE, NONE,
    NONE, NONE, NONE, NONE, NONE, NONE, NONE, NONE, NONE, NONE, NONE, NONE, NONE, NONE, NONE, NONE,
    NONE, NONE, NONE, NONE, NONE, NONE, NONE, NONE, NONE, NONE, NONE, NONE, NONE, NONE, NONE, NONE,
    NONE, NONE, NONE, NONE, NONE, NONE, NONE, NONE, NONE, NONE, NONE, NONE, NONE, NONE, NONE, NONE,
    NONE, NONE, NONE, NONE, NONE, NONE, NONE, NONE, NONE, NONE, NONE, NONE, NONE, NONE, NONE, NONE,
    NONE, NONE, NONE, NONE, NONE, NONE, NONE, NONE, NONE, NONE, NONE, NONE, NONE, NONE, NONE, NONE,
    NONE, NONE, NONE, NONE, NONE, NONE, NONE, NONE, NONE, NONE, NONE, NONE, NONE,
];

/// What each byte is worth as the second of two digits.
const LOW: [u16; 256] = [
    NONE, NONE, NONE, NONE, NONE, NONE, NONE, NONE, NONE, NONE, NONE, NONE, NONE, NONE, NONE, NONE,
    NONE, NONE, NONE, NONE, NONE, NONE, NONE, NONE, NONE, NONE, NONE, NONE, NONE, NONE, NONE, NONE,
    NONE, NONE, NONE, NONE, NONE, NONE, NONE, NONE, NONE, NONE, NONE, NONE, NONE, NONE, NONE, NONE,
    0, 1, 2, 3, 4, 5, 6, 7, 8, 9, NONE, NONE, NONE, NONE, NONE, NONE, NONE, NONE, NONE, NONE, NONE,
    NONE, NONE, NONE, NONE, NONE, NONE, NONE, NONE, NONE, NONE, NONE, NONE, NONE, NONE, NONE, NONE,
    NONE, NONE, NONE, NONE, NONE, NONE, NONE, NONE, NONE, NONE, NONE, NONE, 10, 11, 12, 13, 14, 15,
    NONE, NONE, NONE, NONE, NONE, NONE, NONE, NONE, NONE, NONE, NONE, NONE, NONE, NONE, NONE, NONE,
    NONE, NONE, NONE, NONE, NONE, NONE, NONE, NONE, NONE, NONE, NONE, NONE, NONE, NONE, NONE, NONE,
    NONE, NONE, NONE, NONE, NONE, NONE, NONE, NONE, NONE, NONE, NONE, NONE, NONE, NONE, NONE, NONE,
    NONE, NONE, NONE, NONE, NONE, NONE, NONE, NONE, NONE, NONE, NONE, NONE, NONE, NONE, NONE, NONE,
    NONE, NONE, NONE, NONE, NONE, NONE, NONE, NONE, NONE, NONE, NONE, NONE, NONE, NONE, NONE, NONE,
    NONE, NONE, NONE, NONE, NONE, NONE, NONE, NONE, NONE, NONE, NONE, NONE, NONE, NONE, NONE, NONE,
    NONE, NONE, NONE, NONE, NONE, NONE, NONE, NONE, NONE, NONE, NONE, NONE, NONE, NONE, NONE, NONE,
    NONE, NONE, NONE, NONE, NONE, NONE, NONE, NONE, NONE, NONE, NONE, NONE, NONE, NONE, NONE, NONE,
    NONE, NONE, NONE, NONE, NONE, NONE, NONE, NONE, NONE, NONE, NONE, NONE, NONE, NONE, NONE, NONE,
    NONE, NONE, NONE, NONE, NONE, NONE, NONE, NONE, NONE,
];

/// What a byte is worth as the first of two digits; `NONE` where it is no digit.
#[inline(always)]
fn high_of(byte: u8) -> u16
    ensures small { result ≤ NONE }
    ensures some { result < NONE → (result % 16 ≡ 0) × (byte ≡ slice_index lower_digits (result / 16)) }
    ensures none { result ≡ NONE → (v : ℕ) → v < 16 → byte ≡ slice_index lower_digits v → ⊥ }
{
    HIGH[byte as usize]
}

/// What a byte is worth as the second of two digits; `NONE` where it is no digit.
#[inline(always)]
fn low_of(byte: u8) -> u16
    ensures small { result ≤ NONE }
    ensures some { result < NONE → (result < 16) × (byte ≡ slice_index lower_digits result) }
    ensures none { result ≡ NONE → (v : ℕ) → v < 16 → byte ≡ slice_index lower_digits v → ⊥ }
{
    LOW[byte as usize]
}

/// The byte of two digits.
#[inline(always)]
fn byte_of(high: u8, low: u8) -> Option<u8>
    ensures small { IfSome result (λ byte. byte < 256) }
    ensures some { IfSome result (λ byte. encode_lower (byte ∷ []) ≡ high ∷ low ∷ []) }
    ensures none { IfNone result ((byte : ℕ) → byte < 256 → encode_lower (byte ∷ []) ≡ high ∷ low ∷ [] → ⊥) }
{
    let byte = high_of(high) + low_of(low);
    if byte >= NONE {
        return None;
    }
    Some(byte as u8)
}

/// Reads the bytes of digits, two digits a byte. Returns whether they are those of some.
#[inline(always)]
fn read_into(bytes: &mut [u8], digits: &[u8]) -> bool
    requires { length digits.now ≡ 2 * length bytes.old }
    ensures len { length bytes.new ≡ length bytes.old }
    ensures found { OnTrue result (IsBytes bytes.new × (digits.now ≡ encode_lower bytes.new)) }
    ensures only { OnFalse result ((bytes : List ℕ) → IsBytes bytes → digits.now ≡ encode_lower bytes → ⊥) }
{
    let mut at = 0;
    let mut rest = digits;
    while let Some((sixteen, later)) = rest.split_first_chunk::<16>() {
        let Some(eight) = eight_bytes(sixteen) else {
            return false;
        };
        bytes[at..at + 8].copy_from_slice(&eight);
        at += 8;
        rest = later;
    }
    while let Some((pair, later)) = rest.split_first_chunk::<2>() {
        let Some(byte) = byte_of(pair[0], pair[1]) else {
            return false;
        };
        bytes[at] = byte;
        at += 1;
        rest = later;
    }
    true
}

/// The bytes of digits, two digits a byte, if they are those of some.
fn bytes_of(alloc: Global, digits: &[u8]) -> Result<Option<Vec<u8>>, AllocError>
    requires { length digits.now % 2 ≡ 0 }
    ensures found { IfOk result (λ found. IfSome found (λ v. IsBytes v.items × (digits.now ≡ encode_lower v.items))) }
    ensures only { IfOk result (λ found. IfNone found ((bytes : List ℕ) → IsBytes bytes → digits.now ≡ encode_lower bytes → ⊥)) }
{
    let mut bytes = vec![in alloc; 0u8; digits.len() / 2]?;
    if read_into(bytes.as_mut_slice(), digits) {
        Ok(Some(bytes))
    } else {
        Ok(None)
    }
}

/// The bytes of a field in hex, 1 to `MAX_PAGE` of them, if it has such bytes. Memory is taken only for a field that is
/// as long as some bytes.
pub fn written_bytes(alloc: Global, field: &str) -> Result<Option<Bytes>, AllocError>
    ensures found { IfOk result (λ found. IfSome found (λ bytes. IsWritten bytes × (field.now ≡ encode_lower bytes))) }
    ensures only { IfOk result (λ found. IfNone found ((bytes : List ℕ) → IsWritten bytes → field.now ≡ encode_lower bytes → ⊥)) }
    ensures memory { OnErr result ((0 < length field.now) × (length field.now ≤ MAX_DIGITS) × (length field.now % 2 ≡ 0)) }
{
    if field.is_empty() || field.len() > MAX_DIGITS {
        return Ok(None);
    }
    if field.len() % 2 != 0 {
        return Ok(None);
    }
    match bytes_of(alloc, field.as_bytes())? {
        Some(bytes) => Ok(Some(Bytes::from_vec(bytes))),
        None => Ok(None),
    }
}

/// The bytes of digits that are few, two digits a byte.
fn few_bytes_of(digits: &[u8]) -> Option<SmallBytes>
    requires even { length digits.now % 2 ≡ 0 }
    requires few { length digits.now ≤ 2 * FEW }
    ensures found { IfSome result (λ bytes. IsBytes bytes × (digits.now ≡ encode_lower bytes)) }
    ensures only { IfNone result ((bytes : List ℕ) → IsBytes bytes → digits.now ≡ encode_lower bytes → ⊥) }
{
    let mut few = [0; FEW];
    let len = digits.len() / 2;
    if read_into(&mut few[..len], digits) {
        Some(SmallBytes::few(few, len))
    } else {
        None
    }
}

/// The same bytes as `written_bytes` has, of a field that is longer than `FEW` bytes.
fn many_written_bytes(alloc: Global, field: &str) -> Result<Option<SmallBytes>, AllocError>
    requires { 2 * FEW < length field.now }
    ensures found { IfOk result (λ found. IfSome found (λ bytes. IsWritten bytes × (field.now ≡ encode_lower bytes))) }
    ensures only { IfOk result (λ found. IfNone found ((bytes : List ℕ) → IsWritten bytes → field.now ≡ encode_lower bytes → ⊥)) }
    ensures memory { OnErr result ((length field.now ≤ MAX_DIGITS) × (length field.now % 2 ≡ 0)) }
{
    match written_bytes(alloc, field)? {
        Some(bytes) => Ok(Some(SmallBytes::from_bytes(alloc, bytes)?)),
        None => Ok(None),
    }
}

/// The same bytes as `written_bytes` has. Up to `FEW` of them take no memory.
#[inline(always)]
pub fn small_written_bytes(alloc: Global, field: &str) -> Result<Option<SmallBytes>, AllocError>
    ensures found { IfOk result (λ found. IfSome found (λ bytes. IsWritten bytes × (field.now ≡ encode_lower bytes))) }
    ensures only { IfOk result (λ found. IfNone found ((bytes : List ℕ) → IsWritten bytes → field.now ≡ encode_lower bytes → ⊥)) }
    ensures memory { OnErr result ((2 * FEW < length field.now) × (length field.now ≤ MAX_DIGITS) × (length field.now % 2 ≡ 0)) }
{
    if field.len() > 2 * FEW {
        return many_written_bytes(alloc, field);
    }
    if field.is_empty() || field.len() % 2 != 0 {
        return Ok(None);
    }
    Ok(few_bytes_of(field.as_bytes()))
}
