//! The rounds of SHA-256 on one block (FIPS 180-4, 6.2.2), whose schedule is known.

ghost use Rattle.std.specs.Prelude.{◌≡◌, ℕ, ◌+◌, ◌<◌, ◌≤◌, List};
ghost use Rattle.sha2.specs.Sha256.{add32, add_state, big_sigma0, big_sigma1, ch, maj, round, round_constants, rounds};
ghost use Rattle.esx_formulas.specs.Lanes.{AreSums};

pub(crate) const ROUND_CONSTANTS: [u32; 64] = [
    0x428a_2f98,
    0x7137_4491,
    0xb5c0_fbcf,
    0xe9b5_dba5,
    0x3956_c25b,
    0x59f1_11f1,
    0x923f_82a4,
    0xab1c_5ed5,
    0xd807_aa98,
    0x1283_5b01,
    0x2431_85be,
    0x550c_7dc3,
    0x72be_5d74,
    0x80de_b1fe,
    0x9bdc_06a7,
    0xc19b_f174,
    0xe49b_69c1,
    0xefbe_4786,
    0x0fc1_9dc6,
    0x240c_a1cc,
    0x2de9_2c6f,
    0x4a74_84aa,
    0x5cb0_a9dc,
    0x76f9_88da,
    0x983e_5152,
    0xa831_c66d,
    0xb003_27c8,
    0xbf59_7fc7,
    0xc6e0_0bf3,
    0xd5a7_9147,
    0x06ca_6351,
    0x1429_2967,
    0x27b7_0a85,
    0x2e1b_2138,
    0x4d2c_6dfc,
    0x5338_0d13,
    0x650a_7354,
    0x766a_0abb,
    0x81c2_c92e,
    0x9272_2c85,
    0xa2bf_e8a1,
    0xa81a_664b,
    0xc24b_8b70,
    0xc76c_51a3,
    0xd192_e819,
    0xd699_0624,
    0xf40e_3585,
    0x106a_a070,
    0x19a4_c116,
    0x1e37_6c08,
    0x2748_774c,
    0x34b0_bcb5,
    0x391c_0cb3,
    0x4ed8_aa4a,
    0x5b9c_ca4f,
    0x682e_6ff3,
    0x748f_82ee,
    0x78a5_636f,
    0x84c8_7814,
    0x8cc7_0208,
    0x90be_fffa,
    0xa450_6ceb,
    0xbef9_a3f7,
    0xc671_78f2,
];

/// Ch of the standard, with one operation less.
#[inline(always)]
fn ch(x: u32, y: u32, z: u32) -> u32
    ensures { result ≡ ch x y z }
{
    (x & (y ^ z)) ^ z
}

/// Maj of the standard.
#[inline(always)]
fn maj(x: u32, y: u32, z: u32) -> u32
    ensures { result ≡ maj x y z }
{
    (x & y) ^ (x & z) ^ (y & z)
}

/// The upper case sigma 0 of the standard; its first two rotations begin with the same one.
#[inline(always)]
fn big_sigma0(x: u32) -> u32
    ensures { result ≡ big_sigma0 x }
{
    (x ^ x.rotate_right(11)).rotate_right(2) ^ x.rotate_right(22)
}

/// The upper case sigma 1 of the standard; its first two rotations begin with the same one.
#[inline(always)]
fn big_sigma1(x: u32) -> u32
    ensures { result ≡ big_sigma1 x }
{
    (x ^ x.rotate_right(5)).rotate_right(6) ^ x.rotate_right(25)
}

/// One round, with the sum of its word and its constant.
#[inline(always)]
fn round(v: [u32; 8], sum: u32) -> [u32; 8]
    ensures { (k w : ℕ) → sum ≡ add32 w k → result ≡ round v k w }
{
    let [a, b, c, d, e, f, g, h] = v;
    let raised = h
        .wrapping_add(sum)
        .wrapping_add(ch(e, f, g))
        .wrapping_add(big_sigma1(e));
    let mixed = big_sigma0(a).wrapping_add(maj(a, b, c));
    [
        raised.wrapping_add(mixed),
        a,
        b,
        c,
        d.wrapping_add(raised),
        e,
        f,
        g,
    ]
}

/// Four rounds, from round t on.
#[inline(always)]
fn four_rounds(v: [u32; 8], sums: &[[u32; 4]; 64], lane: usize, t: usize) -> [u32; 8]
    requires lane { lane < 4 }
    requires within { t + 4 ≤ 64 }
    ensures { (ws h : List ℕ) → AreSums sums.now lane ws 64 → v ≡ rounds h ws t → result ≡ rounds h ws (t + 4) }
{
    let v = round(v, sums[t][lane]);
    let v = round(v, sums[t + 1][lane]);
    let v = round(v, sums[t + 2][lane]);
    round(v, sums[t + 3][lane])
}

/// Runs the rounds of the block in that lane, and adds what they give to the state.
pub(crate) fn compress(state: &mut [u32; 8], sums: &[[u32; 4]; 64], lane: usize)
    requires { lane < 4 }
    ensures { (ws : List ℕ) → AreSums sums.now lane ws 64 → state.new ≡ add_state state.old (rounds state.old ws 64) }
{
    let mut v = *state;
    // After eight rounds each word is in its place again.
    'rounds: for turn in 0..8 {
        v = four_rounds(v, sums, lane, 8 * turn);
        v = four_rounds(v, sums, lane, 8 * turn + 4);
    }
    let [a, b, c, d, e, f, g, h] = *state;
    let [i, j, k, l, m, n, o, p] = v;
    *state = [
        a.wrapping_add(i),
        b.wrapping_add(j),
        c.wrapping_add(k),
        d.wrapping_add(l),
        e.wrapping_add(m),
        f.wrapping_add(n),
        g.wrapping_add(o),
        h.wrapping_add(p),
    ];
}
