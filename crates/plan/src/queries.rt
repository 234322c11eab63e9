ghost use Rattle.std.specs.Prelude.{◌≡◌, true, IfOk};
ghost use Rattle.limits.specs.Gaps.{eight_gaps};
ghost use Rattle.plan.specs.Candidate.{candidates};
ghost use Rattle.plan.specs.Cycle.{Euclid, LeastCommon, common};
ghost use Rattle.plan.specs.Fault.{told, told_detail};
ghost use Rattle.plan.specs.Held.{standing};
ghost use Rattle.plan.specs.Message.{JustEnough, Exact};
ghost use Rattle.plan.specs.Queries.{Is, cycle_answer, pairs_answer, pairs_written, AllLeast};
ghost use Rattle.plan.specs.Sound.{good};
ghost use Rattle.plan.specs.Standing.{flows_of};

use crate::Plan;
use crate::fault::PlanFault;
use crate::flow::Flow;
use limits::{GAP_COUNT, Pair};

// The contract of each call says its whole outcome, and so its detail too.
impl Plan {
    /// The names of the links, in plan order.
    pub fn links(&self) -> &[u16]
        ensures shown { result.now ≡ (standing self.now).links }
        ensures kept { good (standing self.now) ≡ true }
    {
        &self.tables.links
    }

    /// The flows, in rising name.
    pub fn flows(&self) -> &[Flow]
        ensures shown { result.now ≡ (standing self.now).flows }
        ensures kept { good (standing self.now) ≡ true }
    {
        &self.tables.flows
    }

    /// The common cycle of a link in milliseconds, 1 where it has no flow.
    #[tactic(auto, using(crate::proofs::Common::common_least, crate::proofs::Gcd::euclid))]
    pub fn common_cycle(&self, link: u16) -> Result<u64, PlanFault>
        ensures number { told result ≡ cycle_answer (standing self.now) link }
        ensures detail { told_detail result ≡ 0 }
        ensures value { IfOk result (Is (common (flows_of (standing self.now) link))) }
        ensures least { told result ≡ 0 → LeastCommon }
        ensures euclid { told result ≡ 0 → Euclid }
    {
        if !self.has_link(link) {
            return Err(PlanFault::UnknownLink);
        }
        Ok(self.cycle_of(link, None))
    }

    /// Writes the candidate of the link at each gap into the lent place, in rising gap.
    pub fn pairs(&self, link: u16, place: &mut [Option<Pair>; GAP_COUNT]) -> Result<(), PlanFault>
        ensures number { told result ≡ pairs_answer (standing self.now) link }
        ensures detail { told_detail result ≡ 0 }
        ensures written { place.new ≡ pairs_written eight_gaps (standing self.now) link place.old }
        ensures least { told result ≡ 0 → AllLeast eight_gaps (flows_of (standing self.now) link) place.new }
        ensures exact { told result ≡ 0 → Exact (flows_of (standing self.now) link) }
        ensures frames { told result ≡ 0 → JustEnough }
    {
        self.ask_pairs(link)?;
        *place = self.candidates(link);
        Ok(())
    }

    /// Asks the questions of `pairs`.
    fn ask_pairs(&self, link: u16) -> Result<(), PlanFault>
        ensures { told result ≡ pairs_answer (standing self.now) link }
    {
        if !self.has_link(link) {
            return Err(PlanFault::UnknownLink);
        }
        if !self.has_flow_of(link) {
            return Err(PlanFault::LinkWithoutFlow);
        }
        Ok(())
    }
}
