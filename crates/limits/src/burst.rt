ghost use Rattle.std.specs.Prelude.{◌++◌};
ghost use Rattle.limits.specs.Burst.{burst, burst_of_pair, burst_at_most};
ghost use Rattle.limits.specs.BurstOrder.{smaller_burst};
ghost use Rattle.limits.specs.SumLaws.{burst_adds, reserve_adds};
ghost use Rattle.std.proofs.Common.{rules};

use crate::burst_total::BurstTotal;
use crate::figure::{Figure, FrameBytes, Units, with_pair};
use crate::measure::Measure;
use crate::pair::Pair;

/// Measures the bytes of one frame of every pair, and between equals what is reserved.
#[derive(Clone, Copy, Debug, PartialEq, Eq)]
pub struct Burst;

impl Measure for Burst {
    type Total = BurstTotal;

    type Cost = BurstTotal;

    ghost totalled = { λ m s. burst s };

    ghost costed = { λ m p. burst_of_pair p };

    ghost atmost = { λ m x y. burst_at_most x y };

    ghost either = { Prim.search rules };

    ghost chained = { Prim.search rules };

    ghost beginning = { λ m xs ys sel. smaller_burst (burst xs) (burst (xs ++ ys)) (burst_adds.begins xs ys) (reserve_adds.begins xs ys) };

    ghost lowered = { λ m xs ys _ sel low. smaller_burst (burst xs) (burst ys) (burst_adds.lowers xs ys sel low) (reserve_adds.lowers xs ys sel low) };

    #[tactic(auto, using(crate::specs::SumLaws::burst_adds, crate::specs::SumLaws::reserve_adds))]
    fn empty_total(&self) -> BurstTotal {
        BurstTotal { bytes: 0, units: 0 }
    }

    fn cost_of(&self, pair: Pair) -> BurstTotal {
        BurstTotal {
            bytes: FrameBytes::of(pair),
            units: Units::of(pair),
        }
    }

    fn total_with(&self, total: BurstTotal, pair: Pair, cost: BurstTotal) -> BurstTotal {
        BurstTotal {
            bytes: with_pair::<FrameBytes>(total.bytes, pair, cost.bytes),
            units: with_pair::<Units>(total.units, pair, cost.units),
        }
    }

    fn no_more(&self, x: BurstTotal, y: BurstTotal) -> bool {
        x <= y
    }
}
