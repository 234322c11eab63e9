ghost use Rattle.std.specs.Prelude.{◌≡◌, ◌<◌, ◌≤◌, true, false, if◌then◌else◌, [], map, length, nat_le};
ghost use Rattle.std.specs.Option.{option_map_or};
ghost use Rattle.planner.specs.Exchange.{LeastOfAll};
ghost use Rattle.planner.specs.Named.{aim_of, visits, named};
ghost use Rattle.planner.specs.Outcome.{outcome, placed};
ghost use Rattle.planner.specs.Table.{candidates_of, LawfulCandidates};
ghost use Rattle.planner.specs.Work.{held, noted, figures_of};
ghost use Rattle.planner.specs.declared.outcome.Outcome.TheVariants.{NoneWithin, Found};

use crate::outcome::Outcome;
use crate::search_row::{Level, WorkRow};
use crate::work_table::{lay_out, write_setting};
use limits::{GAP_COUNT, Limit, Measure, Pair};

/// Searches the candidates of all links for the first setting within the limit that the measure totals least.
/// It is spent where the visits are more than the allowance. Otherwise the setting, if there is one, is written into the first
/// places, and those past the links stay. The work table may hold anything, before and after.
pub(crate) fn search<L: Limit, M: Measure>(
    table: &[[Option<Pair>; GAP_COUNT]],
    limit: &L,
    measure: &M,
    allowance: u32,
    work: &mut [WorkRow<L, M>],
    setting: &mut [Pair],
) -> Outcome<M::Total>
    requires lawful { LawfulCandidates (candidates_of table.now) }
    requires rows { length table.now ≤ length work.now }
    requires places { length table.now ≤ length setting.now }
    ensures told { result ≡ outcome (aim_of (L.breach limit.now) (M.totalled measure.now) (M.atmost measure.now)) (candidates_of table.now) allowance }
    ensures setting { nat_le (visits (aim_of (L.breach limit.now) (M.totalled measure.now) (M.atmost measure.now)) (candidates_of table.now)) allowance ≡ true
        → setting.new ≡ placed (named (aim_of (L.breach limit.now) (M.totalled measure.now) (M.atmost measure.now)) (candidates_of table.now)) setting.old }
    ensures least { LeastOfAll (aim_of (L.breach limit.now) (M.totalled measure.now) (M.atmost measure.now)) (candidates_of table.now) }
{
    if limit.breach_of(limit.empty_load()) != 0 {
        return Outcome::NoneWithin { visits: 0 };
    }
    if table.is_empty() {
        return Outcome::Found {
            total: measure.empty_total(),
            visits: 0,
        };
    }
    lay_out(table, limit, measure, work);
    walk(table.len(), limit, measure, allowance, work, setting)
}

/// Walks through the selections of the candidates that the work table holds, from link to link and back.
fn walk<L: Limit, M: Measure>(
    links: usize,
    limit: &L,
    measure: &M,
    allowance: u32,
    work: &mut [WorkRow<L, M>],
    setting: &mut [Pair],
) -> Outcome<M::Total>
    requires some { 0 < links }
    requires lawful { LawfulCandidates (held links work.now) }
    requires rows { links ≤ length work.now }
    requires places { links ≤ length setting.now }
    requires figures { noted links work.now ≡ map (map (figures_of (L.weighed limit.now) (M.costed measure.now))) (held links work.now) }
    requires within { L.breach limit.now [] ≡ 0 }
    ensures told { result ≡ outcome (aim_of (L.breach limit.now) (M.totalled measure.now) (M.atmost measure.now)) (held links work.old) allowance }
    ensures setting { nat_le (visits (aim_of (L.breach limit.now) (M.totalled measure.now) (M.atmost measure.now)) (held links work.old)) allowance ≡ true
        → setting.new ≡ placed (named (aim_of (L.breach limit.now) (M.totalled measure.now) (M.atmost measure.now)) (held links work.old)) setting.old }
{
    let mut depth = 0;
    let mut here = Level::fresh(limit.empty_load(), measure.empty_total());
    let mut best = None;
    let mut visits = 0;
    loop {
        let Some(pair) = work[depth].candidate(here.tried) else {
            // all candidates of the link were tried
            if depth == 0 {
                return ended(best, visits);
            }
            depth -= 1;
            here = pruned(measure, best, work[depth].level);
            continue;
        };
        if visits == allowance {
            return Outcome::Spent;
        }
        let figures = work[depth].figures_at(here.tried);
        visits += 1;
        here.tried += 1;
        // no setting that goes on from it totals less than the best; most visits end here, so this is asked before the limit
        let total = measure.total_with(here.total, pair, figures.cost);
        if is_beaten(measure, best, total) {
            continue;
        }
        let load = limit.load_with(here.load, pair, figures.weight);
        if limit.breach_of(load) != 0 {
            continue;
        }
        if depth + 1 < links {
            work[depth].leave(here, pair);
            depth += 1;
            here = Level::fresh(load, total);
            continue;
        }
        best = Some(total);
        write_setting(work, depth, pair, setting);
        here = pruned(measure, best, here);
    }
}

/// The level as the search goes on with it: past all its candidates where the best total is no more than that of the pairs before.
fn pruned<B: Copy, M: Measure>(
    measure: &M,
    best: Option<M::Total>,
    level: Level<B, M::Total>,
) -> Level<B, M::Total>
    ensures { result ≡ if option_map_or (λ least. M.atmost measure.now least level.total) best false then record level { tried = 8 } else level }
{
    if is_beaten(measure, best, level.total) {
        return Level {
            tried: GAP_COUNT,
            ..level
        };
    }
    level
}

/// Is the best total so far no more than this one?
fn is_beaten<M: Measure>(measure: &M, best: Option<M::Total>, total: M::Total) -> bool
    ensures { result ≡ option_map_or (λ least. M.atmost measure.now least total) best false }
{
    best.is_some_and(|least| measure.no_more(least, total))
}

/// How a search ends that is not spent.
fn ended<T: Copy>(best: Option<T>, visits: u32) -> Outcome<T>
    ensures { result ≡ option_map_or (λ total. Found total visits) best (NoneWithin visits) }
{
    best.map_or(
        Outcome::NoneWithin { visits },
        |total| Outcome::Found { total, visits },
    )
}
