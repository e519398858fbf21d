//! Sixteen digits in hex as eight bytes, in the lanes of a vector.

ghost use Rattle.std.specs.Prelude.{◌≡◌, List, ℕ, length, IfSome, IfNone};
ghost use Rattle.std.specs.Simd.Lanes.{Each2};
ghost use Rattle.hex.specs.Hex.{encode_lower, IsBytes};
ghost use Rattle.esx_reading.specs.Written.{IsDigitValue};

use std::simd::prelude::*;

/// What each byte is worth as a digit in hex, in lower case, and 16 or more where it is none.
///
/// Letters count from `a` on. All that is 245 or more behind it counts as 245, so that the sum does not wrap.
#[inline(always)]
fn hex_values(bytes: u8x16) -> u8x16
    ensures lanes { length result ≡ 16 }
    ensures values { Each2 IsDigitValue bytes result }
{
    let digits = bytes - u8x16::splat(b'0');
    let letters = (bytes - u8x16::splat(b'a')).simd_min(u8x16::splat(245)) + u8x16::splat(10);
    digits.simd_lt(u8x16::splat(10)).select(digits, letters)
}

/// The eight bytes of sixteen digits in lower case, two digits a byte; none where one is no such digit.
///
/// The factor is 16 * 256 + 1: the upper byte of each product joins two digits.
#[inline(always)]
pub(crate) fn eight_bytes(digits: &[u8; 16]) -> Option<[u8; 8]>
    ensures some { IfSome result (λ bytes. IsBytes bytes × (encode_lower bytes ≡ digits.now)) }
    ensures none { IfNone result ((bytes : List ℕ) → IsBytes bytes → encode_lower bytes ≡ digits.now → ⊥) }
{
    let values = hex_values(u8x16::from_array(*digits));
    if values.simd_gt(u8x16::splat(15)).to_bitmask() != 0 {
        return None;
    }
    let pairs = (u16x8::from_le_bytes(values) * u16x8::splat(4097)) >> 8;
    Some(pairs.cast::<u8>().to_array())
}
