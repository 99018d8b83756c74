//! Numbers by a seed.

/// A row of numbers that its seed decides.
#[derive(Drop)]
pub(crate) struct Chance {
    state: u64,
}

impl Chance {
    pub(crate) fn new(seed: u64) -> Chance {
        Chance { state: seed }
    }

    /// A number below the bound, or 0: the high bits of the next number of a linear congruential row, with Knuth's
    /// factor of MMIX.
    pub(crate) fn below(&mut self, bound: u64) -> u64 {
        self.state = self
            .state
            .wrapping_mul(6_364_136_223_846_793_005)
            .wrapping_add(1_442_695_040_888_963_407);
        let number = self.state >> 33;
        number.checked_rem(bound).unwrap_or(0)
    }

    /// One of so many slots.
    pub(crate) fn slot(&mut self, slots: usize) -> usize {
        self.below(slots as u64) as usize
    }
}
