//! SHA-256 of a long message, four blocks at a time.

ghost use Rattle.std.specs.Prelude.{◌≡◌, ◌+◌, ◌*◌, ◌/◌, ◌%◌, ◌<◌, ◌≤◌, ◌++◌, length, take};
ghost use Rattle.sha2.specs.Sha256.{final_hash, hash_after, initial_hash_256, padding};
ghost use Rattle.esx_formulas.specs.Key.{content_key};

use crate::block::schedule;
use crate::lanes::schedules;
use crate::rounds::compress;

const INITIAL_HASH: [u32; 8] = [
    0x6a09_e667,
    0xbb67_ae85,
    0x3c6e_f372,
    0xa54f_f53a,
    0x510e_527f,
    0x9b05_688c,
    0x1f83_d9ab,
    0x5be0_cd19,
];

/// Takes in the first blocks of four. What the sums held does not matter.
fn absorb(state: &mut [u32; 8], sums: &mut [[u32; 4]; 64], blocks: &[u8], count: usize)
    requires four { length blocks.now ≡ 256 }
    requires some { count ≤ 4 }
    ensures { state.new ≡ hash_after state.old blocks.now count }
{
    schedules(blocks, sums);
    'lanes: for lane in 0..count {
        compress(state, sums, lane);
    }
}

/// Takes in one block.
fn absorb_one(state: &mut [u32; 8], sums: &mut [[u32; 4]; 64], block: &[u8])
    requires { length block.now ≡ 64 }
    ensures { state.new ≡ hash_after state.old block.now 1 }
{
    schedule(block, sums);
    compress(state, sums, 0);
}

/// The end of a message of `total` bytes that has this rest after its groups of four blocks, with its padding.
fn padded(rest: &[u8], total: u64) -> [u8; 512]
    requires short { length rest.now < 256 }
    requires rest { total % 256 ≡ length rest.now }
    ensures room { length result ≡ 512 }
    ensures bytes { take ((length rest.now + 72) / 64 * 64) result ≡ rest.now ++ padding total }
{
    let used = rest.len();
    let end = (used + 72) / 64 * 64;
    let mut tail = [0u8; 512];
    tail[..used].copy_from_slice(rest);
    tail[used] = 0x80;
    tail[end - 8..end].copy_from_slice(&total.wrapping_mul(8).to_be_bytes());
    tail
}

fn absorb_tail(state: &mut [u32; 8], sums: &mut [[u32; 4]; 64], tail: &[u8; 512], count: usize)
    requires { count ≤ 5 }
    ensures { state.new ≡ hash_after state.old tail.now count }
{
    if count == 1 {
        absorb_one(state, sums, &tail[..64]);
    } else if count <= 4 {
        absorb(state, sums, &tail[..256], count);
    } else {
        absorb(state, sums, &tail[..256], 4);
        absorb_one(state, sums, &tail[256..320]);
    }
}

/// The hash value of a message.
fn final_hash(bytes: &[u8]) -> [u32; 8]
    ensures { result ≡ final_hash initial_hash_256 bytes.now }
{
    let mut state = INITIAL_HASH;
    let mut sums = [[0; 4]; 64];
    let groups = bytes.len() / 256;
    'groups: for i in 0..groups {
        absorb(&mut state, &mut sums, &bytes[256 * i..256 * i + 256], 4);
    }
    let rest = &bytes[256 * groups..];
    let tail = padded(rest, bytes.len() as u64);
    absorb_tail(&mut state, &mut sums, &tail, (rest.len() + 72) / 64);
    state
}

/// The key of a page with these bytes.
pub(crate) fn key_of_long_page(bytes: &[u8]) -> u64
    ensures { result ≡ content_key bytes.now }
{
    let state = final_hash(bytes);
    let [a, b, c, d] = state[0].to_be_bytes();
    let [e, f, g, h] = state[1].to_be_bytes();
    u64::from_be_bytes([a, b, c, d, e, f, g, h])
}
