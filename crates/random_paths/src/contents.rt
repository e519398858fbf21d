//! What is written: few contents, so that pages are equal often, or equal but for one byte.

use crate::draws::Draws;
use esx_types::{Bytes, SmallBytes};
use std::alloc::{AllocError, Global};

fn filled(alloc: Global, len: u32, byte: u8) -> Result<Vec<u8>, AllocError> {
    vec![in alloc; byte; len as usize]
}

/// Bytes that are equal but for one.
fn nearly(alloc: Global, len: u32, at: u32) -> Result<Vec<u8>, AllocError> {
    let mut bytes = filled(alloc, len, 7)?;
    if let Some(byte) = bytes.get_mut(at as usize) {
        *byte = 8;
    }
    Ok(bytes)
}

fn random(alloc: Global, len: u32, draws: &mut Draws) -> Result<Vec<u8>, AllocError> {
    let mut bytes = Vec::new(alloc);
    for _ in 0..len {
        bytes.push((draws.word() & 0xff) as u8)?;
    }
    Ok(bytes)
}

/// Where bytes differ that are nearly equal: at the first, the last or any place.
fn odd_place(page: u32, draws: &mut Draws) -> u32 {
    match draws.below(3) {
        0 => 0,
        1 => page.saturating_sub(1),
        _ => draws.below(page),
    }
}

/// Two numbers: where pages of a size begin with one of them, in eight bytes, and are zero behind, their keys have one
/// short.
fn of_one_short(page: u32) -> [u32; 2] {
    match page {
        16 => [38184, 59135],
        32 => [56688, 56768],
        240 => [37114, 107182],
        256 => [49393, 82991],
        272 => [41310, 55500],
        384 => [16496, 52208],
        400 => [9618, 42284],
        _ => [49091, 83635],
    }
}

/// One of two pages whose keys have one short.
fn with_short(alloc: Global, page: u32, draws: &mut Draws) -> Result<Vec<u8>, AllocError> {
    let [one, other] = of_one_short(page);
    let number = if draws.below(2) == 0 { one } else { other };
    let [_, high, middle, low] = number.to_be_bytes();
    let mut bytes = filled(alloc, page, 0)?;
    for (at, own) in [(5, high), (6, middle), (7, low)] {
        if let Some(byte) = bytes.get_mut(at) {
            *byte = own;
        }
    }
    Ok(bytes)
}

/// A whole page, or its first bytes.
pub fn content(alloc: Global, page: u32, draws: &mut Draws) -> Result<SmallBytes, AllocError> {
    let bytes = match draws.below(18) {
        0 => filled(alloc, 1, 0)?,
        1 | 2 => filled(alloc, 1, 0x2a)?,
        3 => filled(alloc, 3, 0xc0)?,
        4 => filled(alloc, page, 0)?,
        5..=9 => filled(alloc, page, 7)?,
        10..=12 => {
            let at = odd_place(page, draws);
            nearly(alloc, page, at)?
        }
        13 => random(alloc, page, draws)?,
        14 => random(alloc, 2, draws)?,
        15 => filled(alloc, page, 0x2a)?,
        _ => with_short(alloc, page, draws)?,
    };
    SmallBytes::from_bytes(alloc, Bytes::from_vec(bytes))
}
