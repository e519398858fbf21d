//! Digits in front of sixteen bytes: one or two by themselves, more as one in the lanes of a vector.

ghost use Rattle.std.specs.Prelude.{◌≡◌, ◌+◌, ◌*◌, ◌%◌, ◌<◌, ◌≤◌, ◌^◌, ℕ, List, get_or, length, map, take, IfSome};
ghost use Rattle.std.specs.Int.Digits.{number_from_digits};
ghost use Rattle.std.specs.Simd.Lanes.{Each1, number_l};
ghost use Rattle.std.specs.Str.Parse.{AllDigits, digits_value};

use std::simd::prelude::*;

/// The value of each byte as a digit, and 10 or more where it is none.
#[inline(always)]
pub(crate) fn values(bytes: &[u8; 16]) -> u8x16
    ensures { result ≡ map (λ b. (b + 208) % 256) bytes.now }
{
    u8x16::from_array(*bytes) - u8x16::splat(b'0')
}

/// How many digits stand in front.
#[inline(always)]
pub(crate) fn digits_len(values: u8x16) -> usize
    ensures within { result ≤ 16 }
    ensures digits { Each1 (λ d. d < 10) (take result values) }
{
    let stops = values.simd_gt(u8x16::splat(9)).to_bitmask();
    if stops == 0 {
        return 16;
    }
    stops.trailing_zeros() as usize
}

/// The number that eight digits write, from those of each two.
///
/// The factor is 100 * 65,536 + 1: the upper half of each product joins two pairs.
#[inline(always)]
fn eight_digits(pairs: u64) -> u64
    ensures { (a b c d : ℕ) → a < 100 → b < 100 → c < 100 → d < 100 → pairs ≡ a + 65536 * (b + 65536 * (c + 65536 * d))
        → result ≡ ((a * 100 + b) * 100 + c) * 100 + d }
{
    let fours = pairs.wrapping_mul(6_553_601);
    (fours >> 16) % 65_536 * 10_000 + (fours >> 48)
}

/// The number that sixteen digits write.
///
/// The factor is 10 * 256 + 1: the upper byte of each product joins two digits.
#[inline(always)]
pub(crate) fn number_of_sixteen(digits: u8x16) -> u64
    requires { Each1 (λ d. d < 10) digits }
    ensures small { result < 10 ^ 16 }
    ensures value { result ≡ number_from_digits 10 digits }
{
    let pairs = (u16x8::from_le_bytes(digits) * u16x8::splat(2561)) >> 8;
    let [front, back] = u64x2::from_le_bytes(pairs.to_le_bytes()).to_array();
    eight_digits(front) * 100_000_000 + eight_digits(back)
}

/// The number that eight digits write, each a byte of the word, the first the lowest.
#[inline(always)]
fn number_of_eight(digits: u64) -> u64
    ensures { (ds : List ℕ) → length ds ≡ 8 → Each1 (λ d. d < 10) ds → digits ≡ number_l 256 ds
        → result ≡ number_from_digits 10 ds }
{
    let lanes = u16x4::from_le_bytes(u64x1::from_array([digits]).to_le_bytes());
    let pairs = (lanes * u16x4::splat(2561)) >> 8;
    let [pairs] = u64x1::from_le_bytes(pairs.to_le_bytes()).to_array();
    eight_digits(pairs)
}

/// The number that so many digits in front write. They go to the end of eight, behind zeros.
#[inline(always)]
pub(crate) fn number_of_few(values: u8x16, count: usize) -> u64
    requires some { 0 < count }
    requires few { count ≤ 8 }
    requires digits { Each1 (λ d. d < 10) (take count values) }
    ensures { result ≡ number_from_digits 10 (take count values) }
{
    let [front, _] = u64x2::from_le_bytes(values).to_array();
    number_of_eight(front << (64 - 8 * count))
}

/// The number of one digit or two that a space ends, and how many they are. `None` where other bytes stand in front.
#[inline(always)]
pub(crate) fn one_or_two_digits(bytes: &[u8; 16]) -> Option<(u64, usize)>
    ensures within { IfSome result (λ p. p.1 ≤ 2) }
    ensures small { IfSome result (λ p. p.0 < 100) }
    ensures digits { IfSome result (λ p. AllDigits 10 (take p.1 bytes.now) × (p.0 ≡ digits_value 10 (take p.1 bytes.now))) }
    ensures end { IfSome result (λ p. get_or bytes.now p.1 0 ≡ 32) }
{
    let first = u64::from(bytes[0]).wrapping_sub(48);
    if bytes[1] == b' ' {
        return if first > 9 { None } else { Some((first, 1)) };
    }
    let second = u64::from(bytes[1]).wrapping_sub(48);
    if bytes[2] != b' ' || first > 9 || second > 9 {
        return None;
    }
    Some((first * 10 + second, 2))
}
