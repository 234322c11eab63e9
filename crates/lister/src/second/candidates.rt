use crate::second::table::TableFlow;
use limits::Pair;
use std::alloc::Global;
use std::io;

/// The gaps that a link may be given, in ms.
pub(crate) const EIGHT_GAPS: [u16; 8] = [1, 2, 4, 8, 16, 32, 64, 128];

/// The largest MTU that a link may be given, in bytes.
const LARGEST_MTU: u16 = 1471;

/// What a flow sends: a payload in bytes, and the part of the frames of the link that each of its frames weighs.
#[derive(Clone, Copy)]
struct Part {
    payload: u32,
    weight: u64,
}

/// The flows of a link, with the fractions of the message rule brought to one denominator, the product of all cycles. A frame
/// of a flow is 1 / cycle, so it weighs the product of the other cycles.
#[derive(Drop)]
struct Parts {
    parts: Vec<Part>,
    denominator: u64,
}

/// The candidates of the flows of a link, in rising gap: at each gap that has one the least MTU that serves, found by trying
/// every MTU.
pub(crate) fn candidates(alloc: Global, flows: &[TableFlow]) -> io::Result<Vec<Pair>> {
    let parts = Parts::of(alloc, flows)?;
    let mut pairs = Vec::new(alloc);
    for gap in EIGHT_GAPS {
        if let Some(mtu) = (1..=LARGEST_MTU).find(|mtu| parts.are_served(gap, *mtu)) {
            pairs.push(Pair { gap, mtu })?;
        }
    }
    Ok(pairs)
}

impl Parts {
    /// The parts of the flows.
    fn of(alloc: Global, flows: &[TableFlow]) -> io::Result<Parts> {
        let Some(denominator) = product(flows) else {
            return Err(io::Error::other("the product of the cycles is too large"));
        };
        let mut parts = Vec::new(alloc);
        for flow in flows {
            let weight = denominator.checked_div(u64::from(flow.cycle));
            parts.push(Part {
                payload: u32::from(flow.payload),
                weight: weight.unwrap_or(0),
            })?;
        }
        Ok(Parts { parts, denominator })
    }

    /// Are the fractions together at most 1 / gap? A sum that is too large for its type stays above every denominator.
    fn are_served(&self, gap: u16, mtu: u16) -> bool {
        let sum = self.parts.iter().fold(0_u64, |sum, part| {
            sum.saturating_add(u64::from(frames(part.payload, mtu)).saturating_mul(part.weight))
        });
        sum.saturating_mul(u64::from(gap)) <= self.denominator
    }
}

/// The product of the cycles, if it fits.
fn product(flows: &[TableFlow]) -> Option<u64> {
    flows.iter().try_fold(
        1_u64,
        |product, flow| product.checked_mul(u64::from(flow.cycle)),
    )
}

/// How many frames a message needs, none of which carries more than so many bytes. Frames of no byte are never enough.
fn frames(payload: u32, mtu: u16) -> u32 {
    if mtu == 0 {
        return u32::MAX;
    }
    payload.div_ceil(u32::from(mtu))
}
