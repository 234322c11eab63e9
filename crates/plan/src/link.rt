ghost use Rattle.std.specs.Prelude.{◌≡◌, ◌<◌, ◌≤◌, true, false, []};
ghost use Rattle.plan.specs.Bounds.{max_cycle, max_common_cycle};
ghost use Rattle.plan.specs.Cycle.{common};
ghost use Rattle.plan.specs.declared.call.Call.TheVariants.{AddFlow, Amend};
ghost use Rattle.plan.specs.Held.{standing};
ghost use Rattle.plan.specs.Ledger.{effect};
ghost use Rattle.plan.specs.Regular.{Regular, counted};
ghost use Rattle.plan.specs.Standing.{named, link_of_flow, of_link, flows_of};

use crate::Plan;
use crate::bounds::MAX_FLOWS;
use crate::cycle::{common_cycle, multiple};
use crate::flow::Flow;
use arrayvec::ArrayVec;

impl Plan {
    /// The common cycle of a link, without the flow of the name that is left out.
    pub(crate) fn cycle_of(&self, link: u16, but: Option<u16>) -> u64
        ensures value { result ≡ common (counted link but (standing self.now).flows) }
        ensures range { (0 < result) × (result ≤ max_common_cycle) }
    {
        common_cycle(self.flows(), link, but)
    }

    /// Gathers the flows of a link side by side, for whoever goes along them more than once. The place is lent, so that the
    /// flows lie where they are read.
    #[tactic(auto, using(std::proofs::lemmas::Bool::Decides::nat_tests, crate::proofs::Good::few_kept))]
    pub(crate) fn gather(&self, link: u16, own: &mut ArrayVec<Flow, MAX_FLOWS>)
        requires { own.old.items ≡ [] }
        ensures gathered { own.new.items ≡ flows_of (standing self.now) link }
        ensures own { of_link link own.new.items ≡ own.new.items }
        ensures regular { Regular link own.new.items }
    {
        for flow in self.flows() {
            if flow.link == link {
                own.push(*flow);
            }
        }
    }

    /// The common cycle that the flow's link would have with this flow, in place of the one of its name if there is one.
    pub(crate) fn cycle_with(&self, flow: Flow) -> u64
        requires { (0 < flow.cycle) × (flow.cycle ≤ max_cycle) }
        ensures added { named (standing self.now).flows flow.name ≡ false → result ≡ common (flows_of (effect (standing self.now) (AddFlow flow.link flow.name flow.payload flow.cycle)) flow.link) }
        ensures amended { named (standing self.now).flows flow.name ≡ true → flow.link ≡ link_of_flow flow.name (standing self.now).flows → result ≡ common (flows_of (effect (standing self.now) (Amend flow.name flow.payload flow.cycle)) flow.link) }
    {
        let others = self.cycle_of(flow.link, Some(flow.name));
        multiple(u64::from(flow.cycle), others)
    }
}
