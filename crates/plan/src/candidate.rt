ghost use Rattle.std.specs.Prelude.{◌≡◌};
ghost use Rattle.limits.specs.Gaps.{eight_gaps};
ghost use Rattle.plan.specs.Candidate.{least_mtu, candidate, candidates};

use crate::link_flows::LinkFlows;
use limits::{GAP_COUNT, GAPS, MTU_MAX, MTU_MIN, Pair};

impl LinkFlows<'_> {
    /// The candidate at each gap.
    pub(crate) fn candidates(&self) -> [Option<Pair>; GAP_COUNT]
        ensures { result ≡ candidates eight_gaps self.now.flows.now }
    {
        GAPS.map(|gap| self.candidate(gap))
    }

    /// The pair of that gap and the least MTU that serves the flows there.
    fn candidate(&self, gap: u16) -> Option<Pair>
        ensures { result ≡ candidate self.now.flows.now gap }
    {
        self.least_mtu(gap).map(|mtu| Pair { gap, mtu })
    }

    /// The least MTU at which the flows keep the gap. The frames fall as the MTU rises, so halving finds it.
    /// The library halves slices and no ranges of numbers: a table of all MTUs to halve would be no plainer.
    fn least_mtu(&self, gap: u16) -> Option<u16>
        ensures { result ≡ least_mtu self.now.flows.now gap }
    {
        let mut low = MTU_MIN;
        let mut high = MTU_MAX + 1;
        while low < high {
            let mid = (low + high) / 2;
            if self.meets_rule(gap, mid) {
                high = mid;
            } else {
                low = mid + 1;
            }
        }
        (low <= MTU_MAX).then_some(low)
    }
}
