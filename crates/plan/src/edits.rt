ghost use Rattle.std.specs.Prelude.{◌≡◌};
ghost use Rattle.plan.specs.Fault.{told, told_detail};
ghost use Rattle.plan.specs.Held.{standing};
ghost use Rattle.plan.specs.History.{Edit, OneFurther};
ghost use Rattle.plan.specs.declared.call.Call.TheVariants.{AddLink, AddFlow, Amend, Withdraw};
ghost use Rattle.plan.specs.Ledger.{answer, after};
ghost use Rattle.plan.specs.Standing.{nothing};

use crate::Plan;
use crate::fault::PlanFault;
use crate::flow::Flow;
use crate::tables::Tables;
use arrayvec::ArrayVec;

// The contract of each call says its whole outcome, and so its detail too.
impl Plan {
    /// A plan with no link and no flow.
    pub fn open() -> Plan
        ensures { standing result ≡ nothing }
    {
        Plan {
            tables: Tables {
                links: ArrayVec::new(),
                flows: ArrayVec::new(),
            },
        }
    }

    /// Adds a link, the last in plan order.
    pub fn add_link(&mut self, name: u16) -> Result<(), PlanFault>
        ensures number { told result ≡ answer (standing self.old) (AddLink name) }
        ensures detail { told_detail result ≡ 0 }
        ensures after { standing self.new ≡ after (standing self.old) (AddLink name) }
        ensures further { OneFurther (standing self.old) (Edit (AddLink name)) (standing self.new) }
    {
        self.ask_add_link(name)?;
        self.enter_link(name);
        Ok(())
    }

    /// Adds a flow to a link that stands.
    pub fn add_flow(
        &mut self,
        link: u16,
        flow: u16,
        payload: u16,
        cycle: u16,
    ) -> Result<(), PlanFault>
        ensures number { told result ≡ answer (standing self.old) (AddFlow link flow payload cycle) }
        ensures detail { told_detail result ≡ 0 }
        ensures after { standing self.new ≡ after (standing self.old) (AddFlow link flow payload cycle) }
        ensures further { OneFurther (standing self.old) (Edit (AddFlow link flow payload cycle)) (standing self.new) }
    {
        let flow = Flow {
            name: flow,
            link,
            payload,
            cycle,
        };
        self.ask_add_flow(flow)?;
        self.enter_flow(flow);
        Ok(())
    }

    /// Gives a flow that stands another payload and cycle.
    pub fn amend(&mut self, flow: u16, payload: u16, cycle: u16) -> Result<(), PlanFault>
        ensures number { told result ≡ answer (standing self.old) (Amend flow payload cycle) }
        ensures detail { told_detail result ≡ 0 }
        ensures after { standing self.new ≡ after (standing self.old) (Amend flow payload cycle) }
        ensures further { OneFurther (standing self.old) (Edit (Amend flow payload cycle)) (standing self.new) }
    {
        self.ask_amend(flow, payload, cycle)?;
        self.change_flow(flow, payload, cycle);
        Ok(())
    }

    /// Strikes a flow that stands, so that its place and its name are free again.
    pub fn withdraw(&mut self, flow: u16) -> Result<(), PlanFault>
        ensures number { told result ≡ answer (standing self.old) (Withdraw flow) }
        ensures detail { told_detail result ≡ 0 }
        ensures after { standing self.new ≡ after (standing self.old) (Withdraw flow) }
        ensures further { OneFurther (standing self.old) (Edit (Withdraw flow)) (standing self.new) }
    {
        self.ask_withdraw(flow)?;
        self.strike_flow(flow);
        Ok(())
    }
}
