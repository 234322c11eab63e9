ghost use Rattle.std.specs.Prelude.{◌≡◌, ◌*◌, ◌<◌, ◌≤◌};
ghost use Rattle.plan.specs.Bounds.{max_payload, max_common_cycle};
ghost use Rattle.plan.specs.Message.{meets, sent_by};
ghost use Rattle.plan.specs.Regular.{InRange};

use crate::flow::Flow;
use crate::link_flows::LinkFlows;

impl LinkFlows<'_> {
    /// Does the message rule hold at this gap and MTU? In one common cycle every frame has to have its gap.
    #[tactic(auto, using(std::proofs::lemmas::Grind::common_steps, crate::proofs::Exact::exact))]
    pub(crate) fn meets_rule(&self, gap: u16, mtu: u16) -> bool
        requires { 0 < mtu }
        ensures { result ≡ meets self.now.flows.now gap mtu }
    {
        let mut frames = 0;
        for flow in self.flows {
            frames += frames_of(*flow, self.cycle, mtu);
        }
        u64::from(gap) * frames <= self.cycle
    }
}

/// The frames that one flow sends in the period.
#[tactic(auto, using(crate::proofs::Frames::sent_by_bound), unfolding(crate::specs::Message::frames))]
fn frames_of(flow: Flow, period: u64, mtu: u16) -> u64
    requires flow { InRange flow }
    requires period { period ≤ max_common_cycle }
    requires mtu { 0 < mtu }
    ensures value { result ≡ sent_by period mtu flow }
    ensures bound { result ≤ max_payload * max_common_cycle }
{
    let each = u64::from(flow.payload).div_ceil(u64::from(mtu));
    each * (period / u64::from(flow.cycle))
}
