ghost use Rattle.limits.specs.Breach.{unless};
ghost use Rattle.walkthrough.specs.FewFast.{is_fast, fast, few_fast};
ghost use Rattle.walkthrough.specs.FastLaws.{few_fast_begins, few_fast_lowers};

use limits::{Limit, Pair};

/// Admits at most so many pairs at a gap of 1 ms. The load is how many there are so far, and the weight of a pair
/// whether its gap is 1 ms.
#[derive(Clone, Copy)]
pub(crate) struct FewFast {
    pub(crate) most: u32,
}

impl Limit for FewFast {
    type Load = u32;

    type Weight = bool;

    ghost loaded = { λ l s. fast s };

    ghost weighed = { λ l p. is_fast p };

    ghost breach = { λ l s. unless (few_fast l.most s) };

    ghost beginning = { λ l xs ys _ h. few_fast_begins l.most xs ys h };

    ghost lowered = { λ l xs ys _ sel low h. few_fast_lowers l.most xs ys sel low h };

    fn empty_load(&self) -> u32 {
        0
    }

    fn weight_of(&self, pair: Pair) -> bool {
        pair.gap == 1
    }

    #[tactic(auto, using(crate::specs::FastLaws::fast_adds))]
    fn load_with(&self, load: u32, _pair: Pair, weight: bool) -> u32 {
        load + u32::from(weight)
    }

    fn breach_of(&self, load: u32) -> u32 {
        u32::from(load > self.most)
    }
}
