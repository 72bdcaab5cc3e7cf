//! Numbers that a seed determines.

/// The numbers that follow from a seed, by Marsaglia's xorshift with Vigna's multiplication (xorshift64*).
#[derive(Clone, Copy)]
pub(crate) struct Dice {
    state: u64,
}

impl Dice {
    /// The numbers of a seed and of a purpose, so that each purpose has numbers of its own.
    pub(crate) fn new(seed: u64, purpose: u64) -> Dice {
        let mixed = seed
            .wrapping_mul(0x9E37_79B9_7F4A_7C15)
            .wrapping_add(purpose.wrapping_mul(0xD1B5_4A32_D192_ED03));
        Dice { state: mixed | 1 }
    }

    /// The next number.
    fn next(&mut self) -> u64 {
        self.state ^= self.state >> 12;
        self.state ^= self.state << 25;
        self.state ^= self.state >> 27;
        self.state.wrapping_mul(0x2545_F491_4F6C_DD1D)
    }

    /// A number below `end`, or 0 where there is none.
    pub(crate) fn below(&mut self, end: u64) -> u64 {
        (self.next() >> 32).checked_rem(end).unwrap_or(0)
    }

    /// A number from `least` on, of `count` numbers.
    pub(crate) fn among(&mut self, least: u64, count: u64) -> u64 {
        least.saturating_add(self.below(count))
    }

    /// Any byte.
    pub(crate) fn byte(&mut self) -> u8 {
        (self.next() >> 56) as u8
    }

    /// Whether what happens so many times of a hundred happens now.
    pub(crate) fn happens(&mut self, percent: u64) -> bool {
        self.below(100) < percent
    }
}
