ghost use Rattle.std.specs.Prelude.{◌≡◌, ◌<◌, ◌≤◌};
ghost use Rattle.plan.specs.Bounds.{max_common_cycle};
ghost use Rattle.plan.specs.Cycle.{gcd, lcm, common};
ghost use Rattle.plan.specs.Regular.{Regular, counts, counted};

use crate::flow::Flow;

/// The greatest common divisor by Euclid's rule.
#[tactic(auto, using(crate::proofs::Gcd::euclid))]
fn divisor(a: u64, b: u64) -> u64
    ensures { result ≡ gcd a b }
{
    if b == 0 { a } else { divisor(b, a % b) }
}

/// The least common multiple.
#[tactic(auto, using(crate::proofs::Gcd::gcd_pos), unfolding(crate::specs::Cycle::lcm))]
pub(crate) fn multiple(a: u64, b: u64) -> u64
    requires { (a ≤ max_common_cycle) × ((0 < b) × (b ≤ max_common_cycle)) }
    ensures { result ≡ lcm a b }
{
    a * (b / divisor(a, b))
}

/// The common cycle of the link's flows among these, without the one of the name that is left out; 1 where there are none.
#[tactic(auto, using(crate::proofs::Common::joining))]
pub(crate) fn common_cycle(flows: &[Flow], link: u16, but: Option<u16>) -> u64
    requires { Regular link flows.now }
    ensures value { result ≡ common (counted link but flows.now) }
    ensures range { (0 < result) × (result ≤ max_common_cycle) }
{
    let mut joined = 1;
    for flow in flows {
        if flow_counts(flow, link, but) {
            joined = multiple(joined, u64::from(flow.cycle));
        }
    }
    joined
}

/// Is the flow the link's, and has it another name than the one that is left out?
fn flow_counts(flow: &Flow, link: u16, but: Option<u16>) -> bool
    ensures { result ≡ counts link but flow.now }
{
    flow.link == link && but != Some(flow.name)
}
