ghost use Rattle.std.specs.Prelude.{◌≡◌};
ghost use Rattle.limits.specs.Gaps.{eight_gaps};
ghost use Rattle.limits.specs.Selection.{Lawful};
ghost use Rattle.plan.specs.Candidate.{candidates};
ghost use Rattle.plan.specs.Held.{standing};
ghost use Rattle.plan.specs.Message.{JustEnough, Exact, meets};
ghost use Rattle.plan.specs.Queries.{AllLeast, first_without_flow, served};
ghost use Rattle.plan.specs.Standing.{flows_of};

use crate::Plan;
use crate::link_flows::LinkFlows;
use arrayvec::ArrayVec;
use limits::{GAP_COUNT, Pair};

impl Plan {
    /// The first link in plan order that has no flow, if there is one.
    pub fn first_without_flow(&self) -> Option<u16>
        ensures { result ≡ first_without_flow (standing self.now) }
    {
        self.links()
            .iter()
            .copied()
            .find(|link| !self.has_flow_of(*link))
    }

    /// The candidate at each gap for the flows of a link, in rising gap. Where the link has no flow or does not stand, every pair
    /// meets the rule; `pairs` refuses such a link.
    #[tactic(auto, using(crate::proofs::Frames::frames_enough, crate::proofs::Frames::frames_fewest))]
    pub fn candidates(&self, link: u16) -> [Option<Pair>; GAP_COUNT]
        ensures value { result ≡ candidates eight_gaps (flows_of (standing self.now) link) }
        ensures least { AllLeast eight_gaps (flows_of (standing self.now) link) result }
        ensures exact { Exact (flows_of (standing self.now) link) }
        ensures frames { JustEnough }
    {
        let mut own = ArrayVec::new();
        self.gather(link, &mut own);
        LinkFlows::new(&own, link).candidates()
    }

    /// Does the link stand, is the pair lawful, and does it meet the link's message rule?
    pub fn is_served(&self, link: u16, pair: Pair) -> bool
        ensures { result ≡ served eight_gaps (standing self.now) link pair }
    {
        self.has_link(link) && pair.is_lawful() && self.meets_rule(link, pair)
    }

    /// Does the pair meet the message rule of the link?
    fn meets_rule(&self, link: u16, pair: Pair) -> bool
        requires { Lawful pair }
        ensures { result ≡ meets (flows_of (standing self.now) link) pair.gap pair.mtu }
    {
        let mut own = ArrayVec::new();
        self.gather(link, &mut own);
        LinkFlows::new(&own, link).meets_rule(pair.gap, pair.mtu)
    }
}
