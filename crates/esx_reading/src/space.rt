//! Where the first space of a text stands.

ghost use Rattle.std.specs.Prelude.{◌≡◌, ◌<◌, ◌≤◌, get_or, length, take};
ghost use Rattle.esx_reading.specs.Fields.{HasNoSpace};

use std::simd::prelude::*;

/// Where the first space of sixteen bytes stands, or 16.
#[inline(always)]
fn space_in_sixteen(bytes: &[u8; 16]) -> usize
    ensures within { result ≤ 16 }
    ensures before { HasNoSpace (take result bytes.now) }
    ensures here { result < 16 → get_or bytes.now result 0 ≡ 32 }
{
    let spaces = u8x16::from_array(*bytes)
        .simd_eq(u8x16::splat(b' '))
        .to_bitmask();
    if spaces == 0 {
        return 16;
    }
    spaces.trailing_zeros() as usize
}

/// Where the first space from a place on stands, or how many bytes there are where none does.
#[inline(always)]
fn space_from(bytes: &[u8], start: usize) -> usize
    requires within { start ≤ length bytes.now }
    requires before { HasNoSpace (take start bytes.now) }
    ensures within { result ≤ length bytes.now }
    ensures before { HasNoSpace (take result bytes.now) }
    ensures here { result < length bytes.now → get_or bytes.now result 0 ≡ 32 }
{
    for i in start..bytes.len() {
        if bytes[i] == b' ' {
            return i;
        }
    }
    bytes.len()
}

/// Where the first space stands, or how many bytes there are where none does.
#[inline(always)]
pub(crate) fn first_space(bytes: &[u8]) -> usize
    ensures within { result ≤ length bytes.now }
    ensures before { HasNoSpace (take result bytes.now) }
    ensures here { result < length bytes.now → get_or bytes.now result 0 ≡ 32 }
{
    let Some((sixteen, _)) = bytes.split_first_chunk::<16>() else {
        return space_from(bytes, 0);
    };
    let at = space_in_sixteen(sixteen);
    if at == 16 {
        return space_from(bytes, 16);
    }
    at
}
