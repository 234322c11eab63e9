ghost use Rattle.std.specs.Prelude.{◌++◌, nat_le};
ghost use Rattle.limits.specs.Frame.{units};
ghost use Rattle.limits.specs.Sums.{reserve};
ghost use Rattle.std.proofs.lemmas.Bool.{le-leb};
ghost use Rattle.limits.specs.SumLaws.{reserve_adds};
ghost use Rattle.std.proofs.Common.{rules};

use crate::figure::{Figure, Units, with_pair};
use crate::measure::Measure;
use crate::pair::Pair;

/// Measures what is reserved, in units of 1/16 kbit/s.
#[derive(Clone, Copy, Debug, PartialEq, Eq)]
pub struct Reserve;

impl Measure for Reserve {
    type Total = u32;

    type Cost = u32;

    ghost totalled = { λ m s. reserve s };

    ghost costed = { λ m p. units p };

    ghost atmost = { λ m x y. nat_le x y };

    ghost either = { Prim.search rules };

    ghost chained = { Prim.search rules };

    ghost beginning = { λ m xs ys sel. le-leb (reserve xs) (reserve (xs ++ ys)) (reserve_adds.begins xs ys) };

    ghost lowered = { λ m xs ys _ sel low. le-leb (reserve xs) (reserve ys) (reserve_adds.lowers xs ys sel low) };

    #[tactic(auto, using(crate::specs::SumLaws::reserve_adds))]
    fn empty_total(&self) -> u32 {
        0
    }

    fn cost_of(&self, pair: Pair) -> u32 {
        Units::of(pair)
    }

    fn total_with(&self, total: u32, pair: Pair, cost: u32) -> u32 {
        with_pair::<Units>(total, pair, cost)
    }

    fn no_more(&self, x: u32, y: u32) -> bool {
        x <= y
    }
}
