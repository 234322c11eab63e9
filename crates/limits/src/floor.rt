ghost use Rattle.std.specs.Prelude.{nat_le};
ghost use Rattle.limits.specs.Breach.{unless};
ghost use Rattle.limits.specs.Rules.{above_floor};
ghost use Rattle.limits.specs.RuleLaws.{floor_keeps};

use crate::breach::breach_unless;
use crate::limit::Limit;
use crate::pair::Pair;

/// Admits gaps of so many milliseconds or more. The load says whether all gaps so far are, and the
/// weight of a pair whether its gap is.
#[derive(Clone, Copy, Debug, PartialEq, Eq)]
pub struct Floor {
    pub gap: u32,
}

impl Limit for Floor {
    type Load = bool;

    type Weight = bool;

    ghost loaded = { λ l s. above_floor l.gap s };

    ghost weighed = { λ l p. nat_le l.gap p.gap };

    ghost breach = { λ l s. unless (above_floor l.gap s) };

    ghost beginning = { λ l xs ys _ h. (floor_keeps l.gap).begins xs ys h };

    ghost lowered = { λ l xs ys _ sel low h. (floor_keeps l.gap).lowers xs ys sel low h };

    fn empty_load(&self) -> bool {
        true
    }

    fn weight_of(&self, pair: Pair) -> bool {
        self.gap <= u32::from(pair.gap)
    }

    fn load_with(&self, load: bool, _pair: Pair, weight: bool) -> bool {
        load && weight
    }

    fn breach_of(&self, load: bool) -> u32 {
        breach_unless(load)
    }
}
