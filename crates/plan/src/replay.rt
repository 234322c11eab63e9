ghost use Rattle.std.specs.Prelude.{◌≡◌, map, fold, ◌≢◌};
ghost use Rattle.plan.specs.Fault.{told, told_detail};
ghost use Rattle.plan.specs.Held.{standing};
ghost use Rattle.plan.specs.History.{Edit, ledger_of, OneFurther};
ghost use Rattle.plan.specs.Laws.{RefusalChangesNothing, SingleNames, LinksStand, InOrderOfAdding, FiguresLastGiven, LinkLastGiven};
ghost use Rattle.plan.specs.Ledger.{answer, after, ledger};

use crate::Plan;
use crate::call::Call;
use crate::fault::PlanFault;

// The contract of each call says its whole outcome, and so its detail too.
impl Plan {
    /// Performs the call.
    pub fn perform(&mut self, call: Call) -> Result<(), PlanFault>
        ensures number { told result ≡ answer (standing self.old) call }
        ensures detail { told_detail result ≡ 0 }
        ensures after { standing self.new ≡ after (standing self.old) call }
        ensures further { OneFurther (standing self.old) (Edit call) (standing self.new) }
        ensures refused { (told result ≢ 0) → standing self.new ≡ standing self.old }
    {
        match call {
            Call::AddLink { name } => self.add_link(name),
            Call::AddFlow {
                link,
                flow,
                payload,
                cycle,
            } => self.add_flow(link, flow, payload, cycle),
            Call::Amend {
                flow,
                payload,
                cycle,
            } => self.amend(flow, payload, cycle),
            Call::Withdraw { flow } => self.withdraw(flow),
        }
    }

    /// Opens a plan and performs the calls, one after the other, whatever is refused.
    pub fn replay(calls: &[Call]) -> Plan
        ensures after { standing result ≡ ledger calls.now }
        ensures history { standing result ≡ ledger_of (map Edit calls.now) }
        ensures refusal { RefusalChangesNothing }
        ensures names { SingleNames calls.now }
        ensures stands { LinksStand calls.now }
        ensures order { InOrderOfAdding calls.now }
        ensures figures { FiguresLastGiven calls.now }
        ensures link { LinkLastGiven calls.now }
    {
        let mut plan = Plan::open();
        plan.perform_all(calls);
        plan
    }

    /// Performs the calls, one after the other, whatever is refused.
    #[tactic(auto, using(crate::proofs::Replayed::laws))]
    fn perform_all(&mut self, calls: &[Call])
        ensures after { standing self.new ≡ fold after (standing self.old) calls.now }
        ensures refusal { RefusalChangesNothing }
        ensures names { SingleNames calls.now }
        ensures stands { LinksStand calls.now }
        ensures order { InOrderOfAdding calls.now }
        ensures figures { FiguresLastGiven calls.now }
        ensures link { LinkLastGiven calls.now }
    {
        for call in calls {
            // a refused call has changed nothing, so there is nothing to undo
            let _ = self.perform(*call);
        }
    }
}
