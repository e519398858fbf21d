//! The message schedules of four blocks of SHA-256 at once, a block in each lane of a vector (Gueron and Krasnov,
//! "Parallelizing Message Schedules to Accelerate the Computations of Hash Functions").

ghost use Rattle.std.specs.Prelude.{◌≡◌, ℕ, ◌+◌, ◌/◌, ◌^◌, ◌<◌, ◌≤◌, List, length, bit_xor, slice_index};
ghost use Rattle.std.specs.Int.{w32, rotate_right};
ghost use Rattle.sha2.specs.Sha256.{add32, schedule, small_sigma0, small_sigma1, word_at};
ghost use Rattle.esx_formulas.specs.Lanes.{block, next_in_lane, AreSums, IsLane};

use crate::rounds::ROUND_CONSTANTS;
use std::simd::u32x4;

#[inline(always)]
pub(crate) fn word_at(bytes: &[u8], at: usize) -> u32
    requires { at + 4 ≤ length bytes.now }
    ensures { result ≡ word_at bytes.now at }
{
    u32::from_be_bytes([bytes[at], bytes[at + 1], bytes[at + 2], bytes[at + 3]])
}

/// The word at that byte of each of four blocks.
#[inline(always)]
fn words_at(blocks: &[u8], at: usize) -> u32x4
    requires four { length blocks.now ≡ 256 }
    requires within { at + 4 ≤ 64 }
    ensures { (j : ℕ) → j < 4 → slice_index result j ≡ word_at (block blocks.now j) at }
{
    u32x4::from_array([
        word_at(blocks, at),
        word_at(blocks, 64 + at),
        word_at(blocks, 128 + at),
        word_at(blocks, 192 + at),
    ])
}

#[inline(always)]
fn add(a: u32x4, b: u32x4) -> u32x4
    ensures { (j : ℕ) → j < 4 → slice_index result j ≡ add32 (slice_index a j) (slice_index b j) }
{
    a + b
}

#[inline(always)]
fn xor(a: u32x4, b: u32x4) -> u32x4
    ensures { (j : ℕ) → j < 4 → slice_index result j ≡ bit_xor (slice_index a j) (slice_index b j) }
{
    a ^ b
}

#[inline(always)]
fn shift_right(x: u32x4, by: u32) -> u32x4
    requires { by < 32 }
    ensures { (j : ℕ) → j < 4 → slice_index result j ≡ slice_index x j / 2 ^ by }
{
    x >> u32x4::splat(by)
}

#[inline(always)]
fn rotate_right(x: u32x4, by: u32) -> u32x4
    requires { (0 < by) × (by < 32) }
    ensures { (j : ℕ) → j < 4 → slice_index result j ≡ rotate_right w32 (slice_index x j) by }
{
    (x >> u32x4::splat(by)) | (x << u32x4::splat(32 - by))
}

#[inline(always)]
fn small_sigma0(x: u32x4) -> u32x4
    ensures { (j : ℕ) → j < 4 → slice_index result j ≡ small_sigma0 (slice_index x j) }
{
    let rotations = xor(rotate_right(x, 7), rotate_right(x, 18));
    xor(rotations, shift_right(x, 3))
}

#[inline(always)]
fn small_sigma1(x: u32x4) -> u32x4
    ensures { (j : ℕ) → j < 4 → slice_index result j ≡ small_sigma1 (slice_index x j) }
{
    let rotations = xor(rotate_right(x, 17), rotate_right(x, 19));
    xor(rotations, shift_right(x, 10))
}

/// The next word of each block's schedule.
#[inline(always)]
fn next_words(w: &[u32x4; 64], t: usize) -> u32x4
    requires low { 16 ≤ t }
    requires high { t < 64 }
    ensures { (j : ℕ) → j < 4 → slice_index result j ≡ next_in_lane w.now t j }
{
    let sum = add(small_sigma1(w[t - 2]), w[t - 7]);
    let sum = add(sum, small_sigma0(w[t - 15]));
    add(sum, w[t - 16])
}

/// Writes word t of each block's schedule, and its sum with the round's constant.
#[inline(always)]
fn put(w: &mut [u32x4; 64], sums: &mut [[u32; 4]; 64], t: usize, words: u32x4)
    requires { t < 64 }
    ensures { (j : ℕ) (ws : List ℕ) → j < 4 → IsLane w.old sums.old j ws t → slice_index words j ≡ slice_index ws t
        → IsLane w.new sums.new j ws (t + 1) }
{
    w[t] = words;
    sums[t] = add(words, u32x4::splat(ROUND_CONSTANTS[t])).to_array();
}

#[inline(always)]
fn put_next(w: &mut [u32x4; 64], sums: &mut [[u32; 4]; 64], t: usize)
    requires low { 16 ≤ t }
    requires high { t < 64 }
    ensures { (j : ℕ) (b : List ℕ) → j < 4 → IsLane w.old sums.old j (schedule b 48) t
        → IsLane w.new sums.new j (schedule b 48) (t + 1) }
{
    let words = next_words(w, t);
    put(w, sums, t, words);
}

#[inline(always)]
fn put_next_four(w: &mut [u32x4; 64], sums: &mut [[u32; 4]; 64], t: usize)
    requires low { 16 ≤ t }
    requires high { t + 4 ≤ 64 }
    ensures { (j : ℕ) (b : List ℕ) → j < 4 → IsLane w.old sums.old j (schedule b 48) t
        → IsLane w.new sums.new j (schedule b 48) (t + 4) }
{
    put_next(w, sums, t);
    put_next(w, sums, t + 1);
    put_next(w, sums, t + 2);
    put_next(w, sums, t + 3);
}

/// Writes the schedule of each of four blocks, each word with its round's constant added.
pub(crate) fn schedules(blocks: &[u8], sums: &mut [[u32; 4]; 64])
    requires { length blocks.now ≡ 256 }
    ensures { (j : ℕ) → j < 4 → AreSums sums.new j (schedule (block blocks.now j) 48) 64 }
{
    let mut w = [u32x4::splat(0); 64];
    'load: for t in 0..16 {
        put(&mut w, sums, t, words_at(blocks, 4 * t));
    }
    // Eight words a turn, so that few of them are read again from memory.
    'next: for turn in 2..8 {
        put_next_four(&mut w, sums, 8 * turn);
        put_next_four(&mut w, sums, 8 * turn + 4);
    }
}
