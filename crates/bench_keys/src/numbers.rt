//! The keys that are drawn.

/// A key that looks like a digest's bytes, another for each number.
pub fn mixed(number: u64) -> u64 {
    let once = (number ^ (number >> 30)).wrapping_add(0x9e37_79b9_7f4a_7c15);
    let twice = (once ^ (once >> 30)).wrapping_mul(0xbf58_476d_1ce4_e5b9);
    let thrice = (twice ^ (twice >> 27)).wrapping_mul(0x94d0_49bb_1331_11eb);
    thrice ^ (thrice >> 31)
}
