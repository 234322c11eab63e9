ghost use Rattle.std.specs.Prelude.{◌≡◌, ◌≤◌, length, is_some};
ghost use Rattle.plan.specs.Held.{standing};
ghost use Rattle.plan.specs.Position.{position_of};
ghost use Rattle.plan.specs.Standing.{stands, named, flow_named, has_flow};

use crate::Plan;
use crate::flow::Flow;

impl Plan {
    /// Is there a link of that name?
    pub(crate) fn has_link(&self, name: u16) -> bool
        ensures { result ≡ stands (standing self.now) name }
    {
        self.links().contains(&name)
    }

    /// The flow of that name, if there is one.
    #[tactic(auto, using(crate::proofs::Found::some_flow_named))]
    pub(crate) fn find_flow(&self, name: u16) -> Option<Flow>
        ensures found { result ≡ flow_named name (standing self.now).flows }
        ensures named { is_some result ≡ named (standing self.now).flows name }
    {
        first_named(self.flows(), name)
    }

    /// Is there a flow of that name? A plan has few flows, so this and the next go along them.
    pub(crate) fn has_flow(&self, name: u16) -> bool
        ensures { result ≡ named (standing self.now).flows name }
    {
        self.flows().iter().any(|flow| flow.name == name)
    }

    /// Does one of the flows belong to the link?
    pub(crate) fn has_flow_of(&self, link: u16) -> bool
        ensures { result ≡ has_flow (standing self.now) link }
    {
        self.flows().iter().any(|flow| flow.link == link)
    }

    /// Where a flow of that name stands or would be put.
    pub(crate) fn position(&self, name: u16) -> usize
        ensures position { result ≡ position_of name (standing self.now).flows }
        ensures bound { result ≤ length (standing self.now).flows }
    {
        self.flows().partition_point(|flow| flow.name < name)
    }
}

/// The first of the flows that has that name. It stands apart, so that its clause is known where `find_flow` speaks of it.
fn first_named(flows: &[Flow], name: u16) -> Option<Flow>
    ensures { result ≡ flow_named name flows.now }
{
    flows.iter().copied().find(|flow| flow.name == name)
}
