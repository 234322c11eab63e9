ghost use Rattle.std.specs.Prelude.{nat_le};
ghost use Rattle.std.proofs.Common.{rules};
ghost use Rattle.walkthrough.specs.Weighted.{weighted, weighted_pair};
ghost use Rattle.walkthrough.specs.WeightedLaws.{weighted_begins, weighted_lowers};

use limits::{Measure, Pair, Reserve};

/// Measures the units that are reserved and the bytes of the frames together: each byte counts as so many units.
#[derive(Clone, Copy)]
pub(crate) struct Weighted {
    pub(crate) byte: u32,
}

impl Measure for Weighted {
    type Total = u64;

    type Cost = u64;

    ghost totalled = { λ m s. weighted m.byte s };

    ghost costed = { λ m p. weighted_pair m.byte p };

    ghost atmost = { λ m x y. nat_le x y };

    ghost either = { Prim.search rules };

    ghost chained = { Prim.search rules };

    ghost beginning = { λ m xs ys _. weighted_begins m.byte xs ys };

    ghost lowered = { λ m xs ys _ sel low. weighted_lowers m.byte xs ys sel low };

    #[tactic(auto, using(crate::specs::WeightedLaws::weighted_none))]
    fn empty_total(&self) -> u64 {
        0
    }

    fn cost_of(&self, pair: Pair) -> u64 {
        let units = Reserve.cost_of(pair);
        u64::from(units) + u64::from(self.byte) * u64::from(pair.frame_bytes())
    }

    #[tactic(auto, using(crate::specs::WeightedLaws::weighted_push, crate::specs::WeightedLaws::weighted_fits))]
    fn total_with(&self, total: u64, _pair: Pair, cost: u64) -> u64 {
        total + cost
    }

    fn no_more(&self, x: u64, y: u64) -> bool {
        x <= y
    }
}
