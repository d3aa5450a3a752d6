//! One number of all results.

/// The hash FNV-1a, by Fowler, Noll and Vo, in 64 bits.
#[derive(Drop)]
pub(crate) struct Digest {
    hash: u64,
}

impl Digest {
    pub(crate) fn new() -> Self {
        Digest {
            hash: 0xcbf2_9ce4_8422_2325,
        }
    }

    /// Takes a text after those before.
    pub(crate) fn add(&mut self, text: &[u8]) {
        for byte in text {
            self.hash = (self.hash ^ *byte as u64).wrapping_mul(0x0000_0100_0000_01b3);
        }
    }

    /// Takes a number after those before.
    pub(crate) fn add_number(&mut self, number: u64) {
        self.add(&number.to_le_bytes());
    }

    pub(crate) fn value(&self) -> u64 {
        self.hash
    }
}
