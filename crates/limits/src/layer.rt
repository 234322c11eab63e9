ghost use Rattle.std.specs.Prelude.{◌≡◌, ◌↔◌};
ghost use Rattle.limits.specs.Breach.{stacked};
ghost use Rattle.limits.specs.Taken.{IsKept, HoldsOfKept};
ghost use Rattle.std.proofs.Common.{rules};

use crate::breach::stack;
use crate::limit::Limit;
use crate::pair::Pair;

/// A rule on a limit: it admits what the rule and the limit below both admit.
#[derive(Clone, Copy, Debug, PartialEq, Eq)]
pub struct Layer<R, L> {
    pub rule: R,
    pub below: L,
}

/// The load of a layer: that of its rule beside that of the limit below.
#[derive(Clone, Copy, Debug, PartialEq, Eq)]
pub struct LayerLoad<A, B> {
    rule: A,
    below: B,
}

/// The weight of a pair under a layer: that by its rule beside that by the limit below.
#[derive(Clone, Copy, Debug, PartialEq, Eq)]
pub struct LayerWeight<A, B> {
    rule: A,
    below: B,
}

impl<R: Limit, L: Limit> Limit for Layer<R, L> {
    // here, since it speaks of the types of this file
    ghost use Rattle.limits.specs.Layer.{layer_load, layer_weight};

    type Load = LayerLoad<R::Load, L::Load>;

    type Weight = LayerWeight<R::Weight, L::Weight>;

    ghost loaded = { λ l s. layer_load (R.Limit.loaded l.rule) (L.Limit.loaded l.below) s };

    ghost weighed = { λ l p. layer_weight (R.Limit.weighed l.rule) (L.Limit.weighed l.below) p };

    ghost breach = { λ l s. stacked (R.Limit.breach l.rule s) (L.Limit.breach l.below s) };

    ghost beginning = { Prim.search rules };

    ghost lowered = { Prim.search rules };

    fn empty_load(&self) -> LayerLoad<R::Load, L::Load> {
        LayerLoad {
            rule: self.rule.empty_load(),
            below: self.below.empty_load(),
        }
    }

    fn weight_of(&self, pair: Pair) -> LayerWeight<R::Weight, L::Weight> {
        LayerWeight {
            rule: self.rule.weight_of(pair),
            below: self.below.weight_of(pair),
        }
    }

    fn load_with(
        &self,
        load: LayerLoad<R::Load, L::Load>,
        pair: Pair,
        weight: LayerWeight<R::Weight, L::Weight>,
    ) -> LayerLoad<R::Load, L::Load> {
        LayerLoad {
            rule: self.rule.load_with(load.rule, pair, weight.rule),
            below: self.below.load_with(load.below, pair, weight.below),
        }
    }

    // As the trait asks, and besides: a layer admits exactly what its rule and the limit below both admit.
    fn breach_of(&self, load: LayerLoad<R::Load, L::Load>) -> u32
        requires { IsKept (layer_load (R.loaded self.now.rule) (L.loaded self.now.below)) load }
        ensures told { HoldsOfKept (layer_load (R.loaded self.now.rule) (L.loaded self.now.below)) load
            (λ s. result ≡ stacked (R.breach self.now.rule s) (L.breach self.now.below s)) }
        ensures both { HoldsOfKept (layer_load (R.loaded self.now.rule) (L.loaded self.now.below)) load
            (λ s. (result ≡ 0) ↔ ((R.breach self.now.rule s ≡ 0) × (L.breach self.now.below s ≡ 0))) }
    {
        let own = self.rule.breach_of(load.rule);
        let below = self.below.breach_of(load.below);
        stack(own, below)
    }
}
