ghost use Rattle.std.specs.Prelude.{◌≡◌, ℕ, List, [], ◌++◌};
ghost use Rattle.limits.specs.declared.pair.Pair.{Pair};
ghost use Rattle.limits.specs.Selection.{Lawful, Selection, Lowered};
ghost use Rattle.limits.specs.Taken.{IsKept, HoldsOfKept, MayTake, Takes};

use crate::pair::Pair;

/// What a port admits. A limit gives every selection a load and a breach; breach 0 is within the limit.
// A load is kept as `Measure` keeps a total. The two stay apart, since others write against each as it is.
pub trait Limit {
    /// What is kept of a selection to tell its breach and the load with one more pair.
    type Load: Copy;

    /// What a pair adds to a load. It is found once for a pair that many selections take.
    type Weight: Copy;

    /// The load of a selection.
    ghost loaded: { Self → List Pair → Self.Load };

    /// The weight of a pair.
    ghost weighed: { Self → Pair → Self.Weight };

    /// The breach of a selection.
    ghost breach: { Self → List Pair → ℕ };

    /// The load of the empty selection.
    fn empty_load(&self) -> Self::Load
        ensures { result ≡ loaded self.now [] };

    /// The weight of a lawful pair.
    fn weight_of(&self, pair: Pair) -> Self::Weight
        requires { Lawful pair }
        ensures { result ≡ weighed self.now pair };

    /// The load of a selection with one more pair, from its load and the pair's weight.
    fn load_with(&self, load: Self::Load, pair: Pair, weight: Self::Weight) -> Self::Load
        requires load { MayTake (loaded self.now) load pair }
        requires weight { weight ≡ weighed self.now pair }
        ensures { Takes (loaded self.now) load pair result };

    /// The breach of a selection, from its load: a number, since layers count it up and a refusal tells it.
    fn breach_of(&self, load: Self::Load) -> u32
        requires { IsKept (loaded self.now) load }
        ensures { HoldsOfKept (loaded self.now) load (λ s. result ≡ breach self.now s) };

    /// A beginning of a selection within is within.
    ghost beginning: { (l : Self) (xs ys : List Pair) → Selection (xs ++ ys) → breach l (xs ++ ys) ≡ 0 → breach l xs ≡ 0 };

    /// A selection within stays within when MTUs are lowered.
    ghost lowered: { (l : Self) (xs ys : List Pair) → Selection xs → Selection ys → Lowered xs ys → breach l ys ≡ 0 → breach l xs ≡ 0 };
}
