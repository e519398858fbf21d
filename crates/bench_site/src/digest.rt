//! A digest of bytes, as Fowler, Noll and Vo's 64-bit hash (FNV-1a) makes it, taken by words of eight.

/// What was digested so far.
#[derive(Drop)]
pub struct Digest {
    pub hash: u64,
    pub bytes: u64,
}

impl Digest {
    pub fn new() -> Digest {
        Digest {
            hash: 0xCBF2_9CE4_8422_2325,
            bytes: 0,
        }
    }

    fn mix(&mut self, word: u64) {
        self.hash = (self.hash ^ word).wrapping_mul(0x0000_0100_0000_01B3);
        self.hash ^= self.hash >> 29;
    }

    pub fn add(&mut self, bytes: &[u8]) {
        let mut rest = bytes;
        while let Some((eight, later)) = rest.split_first_chunk::<8>() {
            self.mix(u64::from_le_bytes(*eight));
            rest = later;
        }
        for byte in rest {
            self.mix(u64::from(*byte));
        }
        self.bytes = self.bytes.wrapping_add(bytes.len() as u64);
    }
}
