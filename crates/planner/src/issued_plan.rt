ghost use Rattle.std.specs.Prelude.{◌≡◌, List, length};
ghost use Rattle.limits.specs.Gaps.{eight_gaps};
ghost use Rattle.limits.specs.Port.{port_breach};
ghost use Rattle.plan.specs.Fault.{told as pairs_told, told_detail};
ghost use Rattle.plan.specs.Held.{standing};
ghost use Rattle.plan.specs.History.{Event, ledger_of};
ghost use Rattle.plan.specs.Message.{JustEnough, Exact};
ghost use Rattle.plan.specs.Queries.{pairs_answer, pairs_written, AllLeast};
ghost use Rattle.plan.specs.Standing.{flows_of};
ghost use Rattle.planner.specs.Asked.{refusal};
ghost use Rattle.planner.specs.Ending.{ended, ending};
ghost use Rattle.planner.specs.Field.{JudgedByField};
ghost use Rattle.planner.specs.Issued.{issued};
ghost use Rattle.planner.specs.Named.{aim_of};
ghost use Rattle.planner.specs.Promise.{Promised};
ghost use Rattle.planner.specs.Setting.{setting_questions};
ghost use Rattle.planner.specs.SettingFault.{told};

use crate::check::check_setting;
use crate::port_check::check_port_setting;
use crate::row::Row;
use crate::search_row::WorkRow;
use crate::setting_fault::SettingFault;
use crate::solve_fault::SolveFault;
use crate::solved::Solved;
use crate::solver::solve;
use limits::{GAP_COUNT, Limit, Measure, Pair, Port};
use plan::{Plan, PlanFault};

/// A plan that was issued. It tells what the plan told, and admits no change.
#[derive(Drop)]
pub struct IssuedPlan {
    plan: Plan,
}

impl IssuedPlan {
    /// Issues the plan. The caller no longer has it.
    pub fn issue(plan: Plan) -> IssuedPlan
        ensures { issued result ≡ standing plan }
    {
        IssuedPlan { plan }
    }

    /// Writes the candidate of the link at each gap into the lent place, in rising gap.
    pub fn pairs(&self, link: u16, place: &mut [Option<Pair>; GAP_COUNT]) -> Result<(), PlanFault>
        ensures number { pairs_told result ≡ pairs_answer (issued self.now) link }
        ensures detail { told_detail result ≡ 0 }
        ensures written { place.new ≡ pairs_written eight_gaps (issued self.now) link place.old }
        ensures least { pairs_told result ≡ 0 → AllLeast eight_gaps (flows_of (issued self.now) link) place.new }
        ensures exact { pairs_told result ≡ 0 → Exact (flows_of (issued self.now) link) }
        ensures frames { pairs_told result ≡ 0 → JustEnough }
    {
        self.plan.pairs(link, place)
    }

    /// Checks a setting made elsewhere under any limit. It is accepted exactly when every question is answered yes.
    pub fn check_setting<L: Limit>(&self, limit: &L, rows: &[Row]) -> Result<(), SettingFault>
        ensures { told result ≡ refusal (setting_questions eight_gaps (L.breach limit.now) (issued self.now) rows.now) }
    {
        check_setting(&self.plan, limit, rows)
    }

    /// Checks a setting made elsewhere under the port's own limit.
    pub fn check_port_setting(&self, port: Port, rows: &[Row]) -> Result<(), SettingFault>
        ensures told { told result ≡ refusal (setting_questions eight_gaps (port_breach port) (issued self.now) rows.now) }
        ensures field { JudgedByField port (issued self.now) rows.now (told result) }
    {
        check_port_setting(&self.plan, port, rows)
    }

    /// Gives each link of the plan a pair, as `solve` does.
    pub fn solve<L: Limit, M: Measure>(
        &self,
        limit: &L,
        measure: &M,
        allowance: u32,
        answer: &mut [Row],
        work: &mut [WorkRow<L, M>],
    ) -> Result<Solved<M::Total>, SolveFault>
        ensures ending { ended result answer.new ≡ ending eight_gaps (aim_of (L.breach limit.now) (M.totalled measure.now) (M.atmost measure.now)) (issued self.now) allowance (length work.old) answer.old }
        ensures plan { Promised eight_gaps (aim_of (L.breach limit.now) (M.totalled measure.now) (M.atmost measure.now)) (issued self.now) allowance (length answer.old) (length work.old) (ended result answer.new) }
        ensures promise { (events : List Event) → issued self.now ≡ ledger_of events
            → Promised eight_gaps (aim_of (L.breach limit.now) (M.totalled measure.now) (M.atmost measure.now)) (ledger_of events) allowance (length answer.old) (length work.old) (ended result answer.new) }
    {
        solve(&self.plan, limit, measure, allowance, answer, work)
    }
}
