//! Numbers as if at random, the same in each run.

ghost use Rattle.std.specs.Prelude.{◌<◌};

/// A linear congruential generator (Knuth, MMIX).
#[derive(Drop)]
pub struct Draws {
    state: u64,
}

impl Draws {
    pub fn new() -> Draws {
        Draws { state: 1 }
    }

    pub fn below(&mut self, bound: u32) -> u32
        requires { 0 < bound }
        ensures { result < bound }
    {
        self.state = self
            .state
            .wrapping_mul(6364136223846793005)
            .wrapping_add(1442695040888963407);
        ((self.state >> 33) % u64::from(bound)) as u32
    }
}

/// A checksum with one more number in it.
pub fn mixed(sum: u64, number: u32) -> u64 {
    sum.wrapping_mul(31).wrapping_add(u64::from(number))
}
