//! The message schedule of one block of SHA-256 (FIPS 180-4, 6.2.2).

ghost use Rattle.std.specs.Prelude.{◌≡◌, ℕ, ◌+◌, ◌<◌, ◌≤◌, List, length, slice_index};
ghost use Rattle.sha2.specs.Sha256.{schedule, small_sigma0, small_sigma1};
ghost use Rattle.esx_formulas.specs.Lanes.{next_in_lane, AreSums, IsLane};

use crate::lanes::word_at;
use crate::rounds::ROUND_CONSTANTS;

#[inline(always)]
fn small_sigma0(x: u32) -> u32
    ensures { result ≡ small_sigma0 x }
{
    x.rotate_right(7) ^ x.rotate_right(18) ^ (x >> 3)
}

#[inline(always)]
fn small_sigma1(x: u32) -> u32
    ensures { result ≡ small_sigma1 x }
{
    x.rotate_right(17) ^ x.rotate_right(19) ^ (x >> 10)
}

#[inline(always)]
fn put_first(lanes: &mut [u32; 4], sum: u32)
    ensures { slice_index lanes.new 0 ≡ sum }
{
    lanes[0] = sum;
}

/// Writes word t of the schedule, and its sum with the round's constant.
#[inline(always)]
fn put(w: &mut [[u32; 1]; 64], sums: &mut [[u32; 4]; 64], t: usize, word: u32)
    requires { t < 64 }
    ensures { (ws : List ℕ) → IsLane w.old sums.old 0 ws t → word ≡ slice_index ws t
        → IsLane w.new sums.new 0 ws (t + 1) }
{
    w[t] = [word];
    put_first(&mut sums[t], word.wrapping_add(ROUND_CONSTANTS[t]));
}

#[inline(always)]
fn next_word(w: &[[u32; 1]; 64], t: usize) -> u32
    requires low { 16 ≤ t }
    requires high { t < 64 }
    ensures { result ≡ next_in_lane w.now t 0 }
{
    let sum = small_sigma1(w[t - 2][0]).wrapping_add(w[t - 7][0]);
    let sum = sum.wrapping_add(small_sigma0(w[t - 15][0]));
    sum.wrapping_add(w[t - 16][0])
}

#[inline(always)]
fn put_next(w: &mut [[u32; 1]; 64], sums: &mut [[u32; 4]; 64], t: usize)
    requires low { 16 ≤ t }
    requires high { t < 64 }
    ensures { (b : List ℕ) → IsLane w.old sums.old 0 (schedule b 48) t
        → IsLane w.new sums.new 0 (schedule b 48) (t + 1) }
{
    let word = next_word(w, t);
    put(w, sums, t, word);
}

/// Writes the schedule of a block into the first lane, each word with its round's constant added.
pub(crate) fn schedule(block: &[u8], sums: &mut [[u32; 4]; 64])
    requires { length block.now ≡ 64 }
    ensures { AreSums sums.new 0 (schedule block.now 48) 64 }
{
    let mut w = [[0; 1]; 64];
    'load: for t in 0..16 {
        put(&mut w, sums, t, word_at(block, 4 * t));
    }
    'next: for turn in 4..16 {
        put_next(&mut w, sums, 4 * turn);
        put_next(&mut w, sums, 4 * turn + 1);
        put_next(&mut w, sums, 4 * turn + 2);
        put_next(&mut w, sums, 4 * turn + 3);
    }
}
