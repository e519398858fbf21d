//! The key of a content, and what a hint stands under.

ghost use Rattle.std.specs.Prelude.{◌≡◌};
ghost use Rattle.esx_formulas.specs.Key.{content_key, short_of, hint_key};

use crate::digest::key_of_long_page;
use sha2::{Digest, Sha256};

/// From so many bytes on, four blocks of a page are taken in at a time.
const LONG_PAGE: usize = 256;

/// The key of a page with these bytes.
#[tactic(auto, unfolding(crate::specs::Key::content_key))]
pub fn content_key(bytes: &[u8]) -> u64
    ensures { result ≡ content_key bytes.now }
{
    if bytes.len() >= LONG_PAGE {
        return key_of_long_page(bytes);
    }
    let [a, b, c, d, e, f, g, h, ..] = Sha256::digest(bytes);
    u64::from_be_bytes([a, b, c, d, e, f, g, h])
}

/// The upper 32 bits of a key.
pub fn short_of(key: u64) -> u32
    ensures { result ≡ short_of key }
{
    (key >> 32) as u32
}

/// What the hint of a page with these bytes stands under.
pub fn hint_key(bytes: &[u8]) -> u32
    ensures { result ≡ hint_key bytes.now }
{
    short_of(content_key(bytes))
}
