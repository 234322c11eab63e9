ghost use Rattle.std.specs.Prelude.{◌≡◌};
ghost use Rattle.plan.specs.declared.call.Call.TheVariants.{AddLink, AddFlow, Amend, Withdraw};
ghost use Rattle.plan.specs.Held.{standing};
ghost use Rattle.plan.specs.Ledger.{answer, effect};

use crate::Plan;
use crate::flow::Flow;

impl Plan {
    /// Enters a link as the last.
    pub(crate) fn enter_link(&mut self, name: u16)
        requires { 0 ≡ answer (standing self.old) (AddLink name) }
        ensures { standing self.new ≡ effect (standing self.old) (AddLink name) }
    {
        self.tables.links.push(name);
    }

    /// Enters a flow before the first whose name is not below its own.
    #[tactic(auto, using(crate::proofs::Inserted::insert_at_position))]
    pub(crate) fn enter_flow(&mut self, flow: Flow)
        requires { 0 ≡ answer (standing self.old) (AddFlow flow.link flow.name flow.payload flow.cycle) }
        ensures { standing self.new ≡ effect (standing self.old) (AddFlow flow.link flow.name flow.payload flow.cycle) }
    {
        let at = self.position(flow.name);
        self.tables.flows.insert(at, flow);
    }

    /// Gives the flow of that name this payload and this cycle. They stay two numbers, as the calls and `Flow` have them.
    #[tactic(auto, using(crate::proofs::Recorded::position_within, crate::proofs::Recorded::amended_there))]
    pub(crate) fn change_flow(&mut self, name: u16, payload: u16, cycle: u16)
        requires { 0 ≡ answer (standing self.old) (Amend name payload cycle) }
        ensures { standing self.new ≡ effect (standing self.old) (Amend name payload cycle) }
    {
        let at = self.position(name);
        let flow = &mut self.tables.flows[at];
        flow.payload = payload;
        flow.cycle = cycle;
    }

    /// Strikes the flow of that name.
    #[tactic(auto, using(crate::proofs::Recorded::position_within))]
    pub(crate) fn strike_flow(&mut self, name: u16)
        requires { 0 ≡ answer (standing self.old) (Withdraw name) }
        ensures { standing self.new ≡ effect (standing self.old) (Withdraw name) }
    {
        let at = self.position(name);
        self.tables.flows.remove(at);
    }
}
