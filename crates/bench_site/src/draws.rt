//! Numbers that follow from a seed, as Steele, Lea and Flood's SplitMix64 makes them.

ghost use Rattle.std.specs.Prelude.{◌<◌};

/// A stream of drawn numbers.
#[derive(Drop)]
pub struct Draws {
    state: u64,
}

impl Draws {
    pub fn new(seed: u32) -> Draws {
        Draws {
            state: u64::from(seed),
        }
    }

    pub fn word(&mut self) -> u64 {
        self.state = self.state.wrapping_add(0x9E37_79B9_7F4A_7C15);
        let first = (self.state ^ (self.state >> 30)).wrapping_mul(0xBF58_476D_1CE4_E5B9);
        let second = (first ^ (first >> 27)).wrapping_mul(0x94D0_49BB_1331_11EB);
        second ^ (second >> 31)
    }

    /// A number below a bound.
    pub fn below(&mut self, bound: u64) -> u64
        requires { 0 < bound }
        ensures { result < bound }
    {
        self.word() % bound
    }

    /// A number below a bound, in three of four draws one in its first eighth.
    pub fn skewed(&mut self, bound: u64) -> u64
        requires { 8 < bound }
        ensures { result < bound }
    {
        let near = bound / 8;
        if self.below(4) == 0 {
            self.below(bound)
        } else {
            self.below(near)
        }
    }
}
