ghost use Rattle.std.specs.Prelude.{◌≡◌, length};
ghost use Rattle.limits.specs.Gaps.{eight_gaps};
ghost use Rattle.plan.specs.Held.{standing};
ghost use Rattle.planner.specs.Ending.{ended, ending};
ghost use Rattle.planner.specs.Calls.{ledger, aim_by, after_call, rows_after};
ghost use Rattle.planner.specs.Promise.{Promised};

use crate::call::{PlannerCall, SolveCall};
use crate::row::Row;
use crate::search_row::WorkRow;
use crate::solve_fault::SolveFault;
use crate::solved::Solved;
use crate::solver::solve;
use limits::{Limit, Measure};
use plan::Plan;

/// Opens an empty plan, performs the calls one after the other, whatever is refused, and then solves. All solves use the same
/// tables.
pub fn solve_after<L: Limit, M: Measure>(
    calls: &[PlannerCall<L, M>],
    last: &SolveCall<L, M>,
    answer: &mut [Row],
    work: &mut [WorkRow<L, M>],
) -> Result<Solved<M::Total>, SolveFault>
    ensures ending { ended result answer.new ≡ ending eight_gaps (aim_by L.breach M.totalled M.atmost last.now) (ledger calls.now) last.now.allowance (length work.old)
        (rows_after eight_gaps (aim_by L.breach M.totalled M.atmost) (length work.old) calls.now answer.old) }
    ensures promise { Promised eight_gaps (aim_by L.breach M.totalled M.atmost last.now) (ledger calls.now) last.now.allowance (length answer.old) (length work.old) (ended result answer.new) }
{
    let mut plan = Plan::open();
    for call in calls {
        perform(&mut plan, call, answer, work);
    }
    solve(
        &plan,
        &last.limit,
        &last.measure,
        last.allowance,
        answer,
        work,
    )
}

/// Performs a call, and drops what it tells: a refused call has changed nothing, so there is nothing to undo.
fn perform<L: Limit, M: Measure>(
    plan: &mut Plan,
    call: &PlannerCall<L, M>,
    answer: &mut [Row],
    work: &mut [WorkRow<L, M>],
)
    ensures { record { standing = standing plan.new; rows = answer.new } ≡ after_call eight_gaps (aim_by L.breach M.totalled M.atmost) (length work.old) (record { standing = standing plan.old; rows = answer.old }) call.now }
{
    match call {
        PlannerCall::Edit(edit) => {
            let _ = plan.perform(*edit);
        }
        PlannerCall::Solve(asked) => {
            let _ = solve(
                plan,
                &asked.limit,
                &asked.measure,
                asked.allowance,
                answer,
                work,
            );
        }
    }
}
