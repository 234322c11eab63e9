ghost use Rattle.limits.specs.Breach.{unless};
ghost use Rattle.limits.specs.Frame.{units};
ghost use Rattle.limits.specs.Rules.{within_share};
ghost use Rattle.limits.specs.Sums.{reserve};
ghost use Rattle.limits.specs.SumLaws.{reserve_adds};
ghost use Rattle.limits.specs.RuleLaws.{share_keeps};

use crate::breach::breach_unless;
use crate::figure::{Figure, Units, with_pair};
use crate::frame::UNITS_PER_KBIT;
use crate::limit::Limit;
use crate::pair::Pair;

/// Admits what reserves at most so many kbit/s. The load is what is reserved so far, in units of 1/16 kbit/s.
// `Jitter` has the same shape. One type for both would take a figure and two factors as parameters, and is no plainer.
#[derive(Clone, Copy, Debug, PartialEq, Eq)]
pub struct Share {
    pub rate: u32,
}

impl Limit for Share {
    type Load = u32;

    type Weight = u32;

    ghost loaded = { λ l s. reserve s };

    ghost weighed = { λ l p. units p };

    ghost breach = { λ l s. unless (within_share l.rate s) };

    ghost beginning = { λ l xs ys _ h. (share_keeps l.rate).begins xs ys h };

    ghost lowered = { λ l xs ys _ sel low h. (share_keeps l.rate).lowers xs ys sel low h };

    #[tactic(auto, using(crate::specs::SumLaws::reserve_adds))]
    fn empty_load(&self) -> u32 {
        0
    }

    fn weight_of(&self, pair: Pair) -> u32 {
        Units::of(pair)
    }

    fn load_with(&self, load: u32, pair: Pair, weight: u32) -> u32 {
        with_pair::<Units>(load, pair, weight)
    }

    fn breach_of(&self, load: u32) -> u32 {
        breach_unless(u64::from(load) <= UNITS_PER_KBIT * u64::from(self.rate))
    }
}
