ghost use Rattle.std.specs.Prelude.{◌≡◌, ◌<◌, slice_get, slice_index_or, OnSome};
ghost use Rattle.planner.specs.Work.{blank_row};

use arrayvec::ArrayVec;
use limits::{GAP_COUNT, Limit, Measure, Pair};

/// Where a search stands at a link: what the pairs of the links before come to, and how many of its candidates were tried.
#[derive(Clone, Copy)]
pub(crate) struct Level<B, T> {
    pub(crate) load: B,
    pub(crate) total: T,
    pub(crate) tried: usize,
}

impl<B: Copy, T: Copy> Level<B, T> {
    /// Where no candidate of the link was tried.
    pub(crate) fn fresh(load: B, total: T) -> Level<B, T>
        ensures { result ≡ record { load = load; total = total; tried = 0 } }
    {
        Level {
            load,
            total,
            tried: 0,
        }
    }
}

/// What a limit and a measure make of a candidate.
#[derive(Clone, Copy)]
pub(crate) struct Figures<W, C> {
    pub(crate) weight: W,
    pub(crate) cost: C,
}

/// A row of the work table: the candidates of a link, beside each the figures that are found once for all its visits, and where
/// the search left the link with the pair that it tried last.
#[derive(Drop)]
pub struct SearchRow<B, T, W, C> {
    pub(crate) candidates: ArrayVec<Pair, GAP_COUNT>,
    pub(crate) figures: [Figures<W, C>; GAP_COUNT],
    pub(crate) level: Level<B, T>,
    pub(crate) pair: Pair,
}

/// A row of the work table of a solve under such a limit and by such a measure.
pub type WorkRow<L, M> = SearchRow<
    <L as Limit>::Load,
    <M as Measure>::Total,
    <L as Limit>::Weight,
    <M as Measure>::Cost,
>;

/// A row to begin with: a solve under the limit and by the measure writes it before it reads it.
pub fn work_row<L: Limit, M: Measure>(limit: &L, measure: &M) -> WorkRow<L, M>
    ensures { result ≡ blank_row (L.loaded limit.now) (L.weighed limit.now) (M.totalled measure.now) (M.costed measure.now) }
{
    let pair = Pair { gap: 1, mtu: 1 };
    let figures = Figures {
        weight: limit.weight_of(pair),
        cost: measure.cost_of(pair),
    };
    SearchRow {
        candidates: ArrayVec::new(),
        figures: [figures; GAP_COUNT],
        level: Level::fresh(limit.empty_load(), measure.empty_total()),
        pair,
    }
}

impl<B: Copy, T: Copy, W: Copy, C: Copy> SearchRow<B, T, W, C> {
    /// The candidate at that place, counted from 0; none past the last.
    pub(crate) fn candidate(&self, place: usize) -> Option<Pair>
        ensures value { result ≡ slice_get self.now.candidates.items place }
        ensures bound { OnSome result (place < 8) }
    {
        self.candidates.get(place).copied()
    }

    /// The figures of the candidate at that place.
    pub(crate) fn figures_at(&self, place: usize) -> Figures<W, C>
        requires { place < 8 }
        ensures { result ≡ slice_index_or self.now.figures place result }
    {
        self.figures[place]
    }

    /// Notes where the search leaves the link, and the pair that it takes there.
    pub(crate) fn leave(&mut self, level: Level<B, T>, pair: Pair)
        ensures { self.new ≡ record self.old { level = level; pair = pair } }
    {
        self.level = level;
        self.pair = pair;
    }
}
