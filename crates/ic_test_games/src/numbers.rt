/// Numbers in no order to be seen, by a linear congruence.
#[derive(Drop)]
pub struct Numbers {
    last: u32,
}

impl Numbers {
    /// The numbers that come from a seed.
    pub fn from_seed(seed: u32) -> Numbers {
        Numbers { last: seed }
    }

    /// The number of which the next ones come: a seed for them.
    pub fn last(&self) -> u32 {
        self.last
    }

    /// A number below the bound, and 0 where that is 0.
    pub fn below(&mut self, bound: usize) -> usize {
        self.last = self
            .last
            .wrapping_mul(1_664_525)
            .wrapping_add(1_013_904_223);
        let high = (self.last >> 16) as usize;
        high.checked_rem(bound).unwrap_or(0)
    }
}
