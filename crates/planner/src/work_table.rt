ghost use Rattle.std.specs.Prelude.{◌≡◌, ◌<◌, ◌≤◌, ◌+◌, ◌++◌, [], ◌∷◌, length, map, take, drop};
ghost use Rattle.planner.specs.Table.{present, candidates_of};
ghost use Rattle.planner.specs.Work.{held, noted, figures_of};
ghost use Rattle.limits.specs.Selection.{Lawful};
ghost use Rattle.std.specs.List.{AllByRecursion};

use crate::search_row::{Figures, SearchRow, WorkRow};
use arrayvec::ArrayVec;
use limits::{GAP_COUNT, Limit, Measure, Pair};

/// Writes the candidates of each link into its row of the work table, so that no turn of the search passes over an empty place,
/// and their figures beside them, so that none is found twice.
pub(crate) fn lay_out<L: Limit, M: Measure>(
    table: &[[Option<Pair>; GAP_COUNT]],
    limit: &L,
    measure: &M,
    work: &mut [WorkRow<L, M>],
)
    requires lawful { AllByRecursion (AllByRecursion Lawful) (candidates_of table.now) }
    requires rows { length table.now ≤ length work.now }
    ensures candidates { held (length table.now) work.new ≡ candidates_of table.now }
    ensures figures { noted (length table.now) work.new ≡ map (map (figures_of (L.weighed limit.now) (M.costed measure.now))) (candidates_of table.now) }
{
    for (link, places) in table.iter().enumerate() {
        lay_out_row(places, limit, measure, &mut work[link]);
    }
}

/// Writes the candidates of a link and their figures into its row.
fn lay_out_row<L: Limit, M: Measure>(
    places: &[Option<Pair>; GAP_COUNT],
    limit: &L,
    measure: &M,
    row: &mut WorkRow<L, M>,
)
    requires { AllByRecursion Lawful (present places.now) }
    ensures candidates { row.new.candidates.items ≡ present places.now }
    ensures figures { take (length row.new.candidates.items) row.new.figures ≡ map (figures_of (L.weighed limit.now) (M.costed measure.now)) (present places.now) }
{
    let candidates = present(places);
    for (place, pair) in candidates.iter().enumerate() {
        row.figures[place] = Figures {
            weight: limit.weight_of(*pair),
            cost: measure.cost_of(*pair),
        };
    }
    row.candidates = candidates;
}

/// The candidates that a row of the table holds.
fn present(places: &[Option<Pair>; GAP_COUNT]) -> ArrayVec<Pair, GAP_COUNT>
    ensures { result.items ≡ present places.now }
{
    let mut pairs = ArrayVec::new();
    for place in places {
        if let Some(pair) = *place {
            pairs.push(pair);
        }
    }
    pairs
}

/// Writes the pairs that the search chose: those of the first links from the work table, and then the last.
// runs seldom; inlined, it would take registers from the loop of the search
#[inline(never)]
pub(crate) fn write_setting<B: Copy, T: Copy, W: Copy, C: Copy>(
    work: &[SearchRow<B, T, W, C>],
    depth: usize,
    pair: Pair,
    setting: &mut [Pair],
)
    requires rows { depth ≤ length work.now }
    requires places { depth < length setting.now }
    ensures { setting.new ≡ (map (λ row. row.pair) (take depth work.now) ++ pair ∷ []) ++ drop (depth + 1) setting.old }
{
    for (link, row) in work[..depth].iter().enumerate() {
        setting[link] = row.pair;
    }
    setting[depth] = pair;
}
