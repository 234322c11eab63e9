use rand_core::{Rng, SeedableRng};
use rand_xoshiro::SplitMix64;

/// Numbers that look random and are the same in every run.
#[derive(Drop)]
pub(crate) struct Random {
    numbers: SplitMix64,
}

impl Random {
    /// The numbers that follow from the seed.
    pub(crate) fn new(seed: u64) -> Random {
        Random {
            numbers: SplitMix64::seed_from_u64(seed),
        }
    }

    /// The next number.
    fn next(&mut self) -> u64 {
        self.numbers.next_u64()
    }

    /// A number below the bound; 0 where there is none.
    pub(crate) fn below(&mut self, bound: u64) -> u64 {
        self.next().checked_rem(bound).unwrap_or(0)
    }

    /// Happens once in so many times.
    pub(crate) fn once_in(&mut self, times: u64) -> bool {
        self.below(times) == 0
    }

    /// A number from the one to the other.
    pub(crate) fn between(&mut self, low: u16, high: u16) -> u16 {
        let span = u64::from(high.saturating_sub(low)) + 1;
        let more = self.next() % span;
        low.saturating_add(more as u16)
    }

    /// One of the items, or none where there is none.
    pub(crate) fn pick<T: Copy>(&mut self, items: &[T]) -> Option<T> {
        let at = self.below(items.len() as u64);
        items.get(at as usize).copied()
    }
}
