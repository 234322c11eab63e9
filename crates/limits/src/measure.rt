ghost use Rattle.std.specs.Prelude.{◌≡◌, Bool, true, false, List, [], ◌++◌};
ghost use Rattle.limits.specs.declared.pair.Pair.{Pair};
ghost use Rattle.limits.specs.Selection.{Lawful, Selection, Lowered};
ghost use Rattle.limits.specs.Taken.{MayTake, Takes};

use crate::pair::Pair;

/// What a selection costs. A measure gives every selection a total, and compares any two totals.
// A total is kept as `Limit` keeps a load. The two stay apart, since others write against each as it is.
pub trait Measure {
    /// What a selection comes to.
    type Total: Copy;

    /// What a pair adds to a total. It is found once for a pair that many selections take.
    type Cost: Copy;

    /// The total of a selection.
    ghost totalled: { Self → List Pair → Self.Total };

    /// The cost of a pair.
    ghost costed: { Self → Pair → Self.Cost };

    /// The first total is no more than the second.
    ghost atmost: { Self → Self.Total → Self.Total → Bool };

    /// The total of the empty selection.
    fn empty_total(&self) -> Self::Total
        ensures { result ≡ totalled self.now [] };

    /// The cost of a lawful pair.
    fn cost_of(&self, pair: Pair) -> Self::Cost
        requires { Lawful pair }
        ensures { result ≡ costed self.now pair };

    /// The total of a selection with one more pair, from its total and the pair's cost.
    fn total_with(&self, total: Self::Total, pair: Pair, cost: Self::Cost) -> Self::Total
        requires total { MayTake (totalled self.now) total pair }
        requires cost { cost ≡ costed self.now pair }
        ensures { Takes (totalled self.now) total pair result };

    /// Is the first total no more than the second?
    fn no_more(&self, x: Self::Total, y: Self::Total) -> bool
        ensures { result ≡ atmost self.now x y };

    /// Of any two totals one is no more than the other.
    ghost either: { (m : Self) (x y : Self.Total) → atmost m x y ≡ false → atmost m y x ≡ true };

    /// The comparison passes along a chain.
    ghost chained: { (m : Self) (x y z : Self.Total) → atmost m x y ≡ true → atmost m y z ≡ true → atmost m x z ≡ true };

    /// A beginning of a selection totals no more than the whole.
    ghost beginning: { (m : Self) (xs ys : List Pair) → Selection (xs ++ ys) → atmost m (totalled m xs) (totalled m (xs ++ ys)) ≡ true };

    /// A selection totals no more when MTUs are lowered.
    ghost lowered: { (m : Self) (xs ys : List Pair) → Selection xs → Selection ys → Lowered xs ys → atmost m (totalled m xs) (totalled m ys) ≡ true };
}
