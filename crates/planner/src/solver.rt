ghost use Rattle.std.specs.Prelude.{◌≡◌, ◌<◌, ◌≤◌, is_none, List, length, None};
ghost use Rattle.std.specs.List.{list_all};
ghost use Rattle.limits.specs.Gaps.{eight_gaps};
ghost use Rattle.plan.specs.Held.{standing};
ghost use Rattle.plan.specs.History.{Event, Solve, ledger_of, OneFurther};
ghost use Rattle.plan.specs.Queries.{first_without_flow};
ghost use Rattle.planner.specs.Choice.{candidate_table, first_without_candidate};
ghost use Rattle.planner.specs.Ending.{ended, ending};
ghost use Rattle.planner.specs.Named.{aim_of};
ghost use Rattle.planner.specs.Promise.{Promised};

use crate::answer_table::write_rows;
use crate::outcome::Outcome;
use crate::row::Row;
use crate::search::search;
use crate::search_row::WorkRow;
use crate::solve_fault::SolveFault;
use crate::solved::Solved;
use arrayvec::ArrayVec;
use limits::{GAP_COUNT, Limit, MAX_PAIRS, Measure, Pair};
use plan::Plan;

/// The candidates of the links in plan order, each with a place for each gap.
type Table = ArrayVec<[Option<Pair>; GAP_COUNT], MAX_PAIRS>;

/// Gives each link of the plan a pair: the named setting, which the measure totals least of all choices within the limit. Its
/// rows go into the answer table from the first on. Both tables may hold anything before, and the work table afterwards; the
/// answer table needs a row for each link, and the work table one more.
pub fn solve<L: Limit, M: Measure>(
    plan: &Plan,
    limit: &L,
    measure: &M,
    allowance: u32,
    answer: &mut [Row],
    work: &mut [WorkRow<L, M>],
) -> Result<Solved<M::Total>, SolveFault>
    ensures ending { ended result answer.new ≡ ending eight_gaps (aim_of (L.breach limit.now) (M.totalled measure.now) (M.atmost measure.now)) (standing plan.now) allowance (length work.old) answer.old }
    ensures plan { Promised eight_gaps (aim_of (L.breach limit.now) (M.totalled measure.now) (M.atmost measure.now)) (standing plan.now) allowance (length answer.old) (length work.old) (ended result answer.new) }
    ensures promise { (events : List Event) → standing plan.now ≡ ledger_of events
        → Promised eight_gaps (aim_of (L.breach limit.now) (M.totalled measure.now) (M.atmost measure.now)) (ledger_of events) allowance (length answer.old) (length work.old) (ended result answer.new) }
    ensures further { OneFurther (standing plan.now) Solve (standing plan.now) }
{
    if let Some(link) = plan.first_without_flow() {
        return Err(SolveFault::LinkWithoutFlow { link });
    }
    let links = plan.links();
    if answer.len() < links.len() {
        return Err(SolveFault::AnswerTableTooShort);
    }
    if work.len() <= links.len() {
        return Err(SolveFault::WorkTableTooShort);
    }
    search_port(plan, limit, measure, allowance, answer, work)
}

/// Solves for a plan whose links all have flows, with tables that are long enough.
fn search_port<L: Limit, M: Measure>(
    plan: &Plan,
    limit: &L,
    measure: &M,
    allowance: u32,
    answer: &mut [Row],
    work: &mut [WorkRow<L, M>],
) -> Result<Solved<M::Total>, SolveFault>
    requires flows { first_without_flow (standing plan.now) ≡ None }
    requires rows { length (standing plan.now).links ≤ length answer.now }
    requires work { length (standing plan.now).links < length work.now }
    ensures { ended result answer.new ≡ ending eight_gaps (aim_of (L.breach limit.now) (M.totalled measure.now) (M.atmost measure.now)) (standing plan.now) allowance (length work.old) answer.old }
{
    let table = candidate_table(plan);
    if let Some(link) = first_without_candidate(plan, &table) {
        return Err(SolveFault::LinkWithoutCandidate { link });
    }
    let mut setting = [Pair::default(); MAX_PAIRS];
    match search(&table, limit, measure, allowance, work, &mut setting) {
        Outcome::Spent => Err(SolveFault::Spent),
        Outcome::NoneWithin { .. } => Err(SolveFault::NothingWithin),
        Outcome::Found { total, visits } => {
            write_rows(plan.links(), &setting, answer);
            Ok(Solved { total, visits })
        }
    }
}

/// The candidates of each link.
fn candidate_table(plan: &Plan) -> Table
    ensures { result.items ≡ candidate_table eight_gaps (standing plan.now) }
{
    let mut table = Table::new();
    for link in plan.links() {
        table.push(plan.candidates(*link));
    }
    table
}

/// The first link that has no candidate, by the table of all candidates.
fn first_without_candidate(plan: &Plan, table: &[[Option<Pair>; GAP_COUNT]]) -> Option<u16>
    requires { table.now ≡ candidate_table eight_gaps (standing plan.now) }
    ensures { result ≡ first_without_candidate eight_gaps (standing plan.now) }
{
    plan.links()
        .iter()
        .zip(table)
        .find(|(_, places)| is_empty(places))
        .map(|(link, _)| *link)
}

/// Is there no candidate at any gap?
fn is_empty(places: &[Option<Pair>; GAP_COUNT]) -> bool
    ensures { result ≡ list_all is_none places.now }
{
    places.iter().all(|place| place.is_none())
}
