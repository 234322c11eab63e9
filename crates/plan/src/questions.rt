ghost use Rattle.std.specs.Prelude.{◌≡◌, [], ◌∷◌};
ghost use Rattle.limits.specs.Questions.{first_no};
ghost use Rattle.limits.specs.Range.{within};
ghost use Rattle.plan.specs.declared.call.Call.TheVariants.{AddLink, AddFlow, Amend, Withdraw};
ghost use Rattle.plan.specs.Bounds.{max_payload, max_cycle};
ghost use Rattle.plan.specs.Fault.{told};
ghost use Rattle.plan.specs.Held.{standing};
ghost use Rattle.plan.specs.Ledger.{answer};

use crate::Plan;
use crate::bounds::{MAX_COMMON_CYCLE, MAX_CYCLE, MAX_FLOWS, MAX_LINKS, MAX_PAYLOAD};
use crate::fault::PlanFault;
use crate::flow::Flow;

impl Plan {
    /// Asks the questions of `add_link`.
    pub(crate) fn ask_add_link(&self, name: u16) -> Result<(), PlanFault>
        ensures { told result ≡ answer (standing self.now) (AddLink name) }
    {
        if self.links().len() >= MAX_LINKS {
            return Err(PlanFault::TooManyLinks);
        }
        if self.has_link(name) {
            return Err(PlanFault::LinkTaken);
        }
        Ok(())
    }

    /// Asks the questions of `add_flow`.
    pub(crate) fn ask_add_flow(&self, flow: Flow) -> Result<(), PlanFault>
        ensures { told result ≡ answer (standing self.now) (AddFlow flow.link flow.name flow.payload flow.cycle) }
    {
        if !self.has_link(flow.link) {
            return Err(PlanFault::UnknownLink);
        }
        if self.has_flow(flow.name) {
            return Err(PlanFault::FlowTaken);
        }
        if self.flows().len() >= MAX_FLOWS {
            return Err(PlanFault::TooManyFlows);
        }
        ask_figures(flow.payload, flow.cycle)?;
        if self.cycle_with(flow) > MAX_COMMON_CYCLE {
            return Err(PlanFault::CommonCycleTooLong);
        }
        Ok(())
    }

    /// Asks the questions of `amend`, of two figures as the call takes them.
    pub(crate) fn ask_amend(&self, name: u16, payload: u16, cycle: u16) -> Result<(), PlanFault>
        ensures { told result ≡ answer (standing self.now) (Amend name payload cycle) }
    {
        let old = self.find_flow(name).ok_or(PlanFault::UnknownFlow)?;
        ask_figures(payload, cycle)?;
        let amended = Flow {
            name,
            link: old.link,
            payload,
            cycle,
        };
        if self.cycle_with(amended) > MAX_COMMON_CYCLE {
            return Err(PlanFault::CommonCycleTooLong);
        }
        Ok(())
    }

    /// Asks the question of `withdraw`.
    pub(crate) fn ask_withdraw(&self, name: u16) -> Result<(), PlanFault>
        ensures { told result ≡ answer (standing self.now) (Withdraw name) }
    {
        if !self.has_flow(name) {
            return Err(PlanFault::UnknownFlow);
        }
        Ok(())
    }
}

/// Asks whether the payload and the cycle of a flow are in range. They stay two numbers, as the calls and `Flow` have them.
fn ask_figures(payload: u16, cycle: u16) -> Result<(), PlanFault>
    ensures { told result ≡ first_no ((9, within 1 max_payload payload) ∷ (10, within 1 max_cycle cycle) ∷ []) }
{
    if !(1..=MAX_PAYLOAD).contains(&payload) {
        return Err(PlanFault::PayloadOutOfRange);
    }
    if !(1..=MAX_CYCLE).contains(&cycle) {
        return Err(PlanFault::CycleOutOfRange);
    }
    Ok(())
}
