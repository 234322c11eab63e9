ghost use Rattle.std.specs.Prelude.{◌≡◌, ◌↔◌, IsTrue};
ghost use Rattle.limits.specs.Judged.{judged};
ghost use Rattle.limits.specs.Selection.{Selection};

use crate::limit::Limit;
use crate::measure::Measure;
use crate::pair::Pair;

/// The most pairs in a selection.
pub const MAX_PAIRS: usize = 64;

/// The breach of the pairs under the limit, or none where they are no selection.
#[tactic(auto, using(crate::proofs::Judged::judged_selection, crate::proofs::Judged::judged_other))]
pub fn breach_of_pairs<L: Limit>(limit: &L, pairs: &[Pair]) -> Option<u32>
    ensures { result ≡ judged (L.breach limit.now) pairs.now }
{
    if !is_selection(pairs) {
        return None;
    }
    Some(breach_of_selection(limit, pairs))
}

/// The breach of a selection under the limit.
fn breach_of_selection<L: Limit>(limit: &L, pairs: &[Pair]) -> u32
    requires { Selection pairs.now }
    ensures { result ≡ L.breach limit.now pairs.now }
{
    let mut load = limit.empty_load();
    for pair in pairs {
        load = limit.load_with(load, *pair, limit.weight_of(*pair));
    }
    limit.breach_of(load)
}

/// The total of the pairs by the measure, or none where they are no selection.
#[tactic(auto, using(crate::proofs::Judged::judged_selection, crate::proofs::Judged::judged_other))]
pub fn total_of_pairs<M: Measure>(measure: &M, pairs: &[Pair]) -> Option<M::Total>
    ensures { result ≡ judged (M.totalled measure.now) pairs.now }
{
    if !is_selection(pairs) {
        return None;
    }
    Some(total_of_selection(measure, pairs))
}

/// The total of a selection by the measure.
fn total_of_selection<M: Measure>(measure: &M, pairs: &[Pair]) -> M::Total
    requires { Selection pairs.now }
    ensures { result ≡ M.totalled measure.now pairs.now }
{
    // as the loop above: a `fold`, or one function for both, takes each step as a closure with two clauses, and is no plainer
    let mut total = measure.empty_total();
    for pair in pairs {
        total = measure.total_with(total, *pair, measure.cost_of(*pair));
    }
    total
}

/// Are the pairs a selection?
fn is_selection(pairs: &[Pair]) -> bool
    ensures { IsTrue result ↔ Selection pairs.now }
{
    pairs.len() <= MAX_PAIRS && pairs.iter().all(|pair| pair.is_lawful())
}
