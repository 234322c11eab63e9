ghost use Rattle.std.specs.Prelude.{◌≡◌, ◌≤◌, length};
ghost use Rattle.std.proofs.Props.{props};
ghost use Rattle.plan.specs.Bounds.{max_common_cycle, max_flows};
ghost use Rattle.plan.specs.Cycle.{common};
ghost use Rattle.plan.specs.Regular.{AllInRange, Regular};
ghost use Rattle.plan.specs.Standing.{of_link};

use crate::cycle::common_cycle;
use crate::flow::Flow;

/// The flows of one link, side by side, and their common cycle. The flows are lent, since they are many to be moved.
#[derive(Clone, Copy)]
pub(crate) struct LinkFlows<'a> {
    pub(crate) flows: &'a [Flow],
    pub(crate) cycle: u64,
    ghost range: { AllInRange flows.now } by { Prim.hlevel props },
    ghost few: { length flows.now ≤ max_flows },
    ghost common: { cycle ≡ common flows.now },
    ghost short: { cycle ≤ max_common_cycle },
}

impl<'a> LinkFlows<'a> {
    /// These flows, which are all the link's.
    pub(crate) fn new(flows: &'a [Flow], link: u16) -> LinkFlows<'a>
        requires own { of_link link flows.now ≡ flows.now }
        requires regular { Regular link flows.now }
        ensures { result.flows.now ≡ flows.now }
    {
        let cycle = common_cycle(flows, link, None);
        LinkFlows { flows, cycle }
    }
}
