ghost use Rattle.limits.specs.Breach.{unless};
ghost use Rattle.limits.specs.Frame.{frame};
ghost use Rattle.limits.specs.Rules.{within_jitter};
ghost use Rattle.limits.specs.Sums.{burst_bytes};
ghost use Rattle.limits.specs.SumLaws.{burst_adds};
ghost use Rattle.limits.specs.RuleLaws.{jitter_keeps};

use crate::breach::breach_unless;
use crate::figure::{Figure, FrameBytes, with_pair};
use crate::limit::Limit;
use crate::pair::Pair;

/// Admits what a port of so many kbit/s sends within 460 microseconds, one frame of every link. The load is the bytes so far.
// `Share` has the same shape. One type for both would take a figure and two factors as parameters, and is no plainer.
#[derive(Clone, Copy, Debug, PartialEq, Eq)]
pub struct Jitter {
    pub rate: u32,
}

impl Limit for Jitter {
    type Load = u32;

    type Weight = u32;

    ghost loaded = { λ l s. burst_bytes s };

    ghost weighed = { λ l p. frame p };

    ghost breach = { λ l s. unless (within_jitter l.rate s) };

    ghost beginning = { λ l xs ys _ h. (jitter_keeps l.rate).begins xs ys h };

    ghost lowered = { λ l xs ys _ sel low h. (jitter_keeps l.rate).lowers xs ys sel low h };

    #[tactic(auto, using(crate::specs::SumLaws::burst_adds))]
    fn empty_load(&self) -> u32 {
        0
    }

    fn weight_of(&self, pair: Pair) -> u32 {
        FrameBytes::of(pair)
    }

    fn load_with(&self, load: u32, pair: Pair, weight: u32) -> u32 {
        with_pair::<FrameBytes>(load, pair, weight)
    }

    fn breach_of(&self, load: u32) -> u32 {
        // 8 × bytes / rate is at most 0.46 ms, with both sides multiplied by 50 × rate
        let most = 23 * u64::from(self.rate);
        breach_unless(400 * u64::from(load) <= most)
    }
}
