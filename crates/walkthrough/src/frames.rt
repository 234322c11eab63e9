use plan::Flow;

/// The frames that the flows of the link send in one common cycle at this MTU.
pub(crate) fn frames_of_link(flows: &[Flow], link: u16, common: u64, mtu: u16) -> Option<u64> {
    flows
        .iter()
        .filter(|flow| flow.link == link)
        .map(|flow| frames_of_flow(flow, common, mtu))
        .try_fold(0_u64, |frames, sent| frames.checked_add(sent?))
}

/// The frames that one flow sends in the common cycle at this MTU.
fn frames_of_flow(flow: &Flow, common: u64, mtu: u16) -> Option<u64> {
    if mtu == 0 {
        return None;
    }
    let each = u64::from(flow.payload).div_ceil(u64::from(mtu));
    let times = common.checked_div(u64::from(flow.cycle))?;
    each.checked_mul(times)
}
