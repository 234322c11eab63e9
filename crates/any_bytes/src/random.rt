use rand_core::{Rng, SeedableRng};
use rand_xoshiro::SplitMix64;

/// Numbers that look random, and are the same in every run.
#[derive(Drop)]
pub(crate) struct Random {
    numbers: SplitMix64,
}

impl Random {
    /// The numbers that follow from the seed.
    pub(crate) fn new(seed: u64) -> Random {
        Random {
            numbers: SplitMix64::seed_from_u64(seed),
        }
    }

    /// Any number of 64 bits.
    fn any(&mut self) -> u64 {
        self.numbers.next_u64()
    }

    /// Any byte.
    pub(crate) fn byte(&mut self) -> u8 {
        let [byte, ..] = self.any().to_be_bytes();
        byte
    }

    /// Any number of 16 bits.
    pub(crate) fn short(&mut self) -> u16 {
        u16::from_be_bytes([self.byte(), self.byte()])
    }

    /// A number of 16 bits below the bound, or 0 where there is none.
    pub(crate) fn short_below(&mut self, bound: u16) -> u16 {
        self.short().checked_rem(bound).unwrap_or(0)
    }

    /// Any number of 32 bits.
    pub(crate) fn long(&mut self) -> u32 {
        let [a, b, c, d, ..] = self.any().to_be_bytes();
        u32::from_be_bytes([a, b, c, d])
    }

    /// A number below the bound, or 0 where there is none.
    pub(crate) fn below(&mut self, bound: usize) -> usize {
        (self.any() as usize).checked_rem(bound).unwrap_or(0)
    }

    /// Is it the one time in so many?
    pub(crate) fn once_in(&mut self, times: usize) -> bool {
        self.below(times) == 0
    }

    /// One of these.
    pub(crate) fn pick<T: Copy + Default>(&mut self, these: &[T]) -> T {
        let at = self.below(these.len());
        these.get(at).copied().unwrap_or_default()
    }
}
