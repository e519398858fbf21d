//! Keys of pages beside their plain digests.

ghost use Rattle.std.specs.Prelude.{◌<◌, length};

use esx_keys::key;
use sha2::{Digest, Sha256};

/// The sum of the keys of so many pages.
pub fn keys(page: &mut [u8], pages: u32) -> u64
    requires { 0 < length page.old }
{
    let mut sum = 0_u64;
    for number in 0..pages {
        page[0] = (number % 256) as u8;
        sum = sum.wrapping_add(key(page));
    }
    sum
}

/// The sum of the first bytes of the digests of so many pages.
pub fn digests(page: &mut [u8], pages: u32) -> u64
    requires { 0 < length page.old }
{
    let mut sum = 0_u64;
    for number in 0..pages {
        page[0] = (number % 256) as u8;
        let digest: [u8; 32] = Sha256::digest(&*page);
        sum = sum.wrapping_add(u64::from(digest[0]));
    }
    sum
}
