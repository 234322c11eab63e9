use crate::random::Random;

/// What the flows of a port are like.
#[derive(Clone, Copy)]
pub(crate) enum Traffic {
    /// Short cycles, so that few gaps serve.
    Busy,
    /// Cycles with small common multiples.
    Regular,
    /// Any cycles up to 400 ms.
    Mixed,
    /// Few messages, chosen so that different selections total the same.
    EqualTotals,
}

/// The payload and the cycle of a flow.
#[derive(Clone, Copy)]
pub(crate) struct Message {
    pub(crate) payload: u16,
    pub(crate) cycle: u16,
}

/// Cycles in ms that have small common multiples.
const REGULAR_CYCLES: [u16; 20] = [
    2, 4, 5, 8, 10, 16, 20, 25, 32, 40, 50, 64, 80, 100, 128, 160, 200, 220, 320, 400,
];

/// Messages with equal totals, by their payloads and cycles. 201 bytes every 3 ms reserve as much at a gap of 1 ms as at 2 ms,
/// and so do the next two. The other six are three couples: 600 bytes every 3 ms reserve at 2 ms, alone, as much as at 1 ms
/// together with 66 bytes every 2 ms at 2 ms, so that a partial selection totals as much as a complete one.
const EQUAL_TOTALS: [(u16, u16); 9] = [
    (201, 3),
    (670, 5),
    (1407, 7),
    (600, 3),
    (66, 2),
    (432, 3),
    (10, 2),
    (702, 3),
    (100, 2),
];

/// The last payloads that are allowed, and ones that are not.
const PAYLOADS_AT_EDGE: [u16; 5] = [0, 1, 8192, 8193, 65_535];

/// The last cycles that are allowed, and ones that are not.
const CYCLES_AT_EDGE: [u16; 5] = [0, 1, 10_000, 10_001, 65_535];

/// A message of a flow: mostly as the traffic of the port is, now and then one that is hard to serve, has a long cycle or has
/// figures out of range.
pub(crate) fn random_message(random: &mut Random, traffic: Traffic) -> Message {
    match random.below(60) {
        0 => Message {
            payload: random.pick(&PAYLOADS_AT_EDGE).unwrap_or(0),
            cycle: random.between(1, 400),
        },
        1 => Message {
            payload: random.between(1, 1500),
            cycle: random.pick(&CYCLES_AT_EDGE).unwrap_or(0),
        },
        2 => Message {
            payload: random.between(1, 8192),
            cycle: random.between(401, 10_000),
        },
        3 => Message {
            payload: random.between(1400, 8192),
            cycle: random.between(1, 7),
        },
        _ => usual_message(random, traffic),
    }
}

/// A message as the traffic of the port is.
fn usual_message(random: &mut Random, traffic: Traffic) -> Message {
    let payload = random.between(1, 1500);
    let (payload, cycle) = match traffic {
        Traffic::Busy => (payload, random.between(1, 24)),
        Traffic::Regular => (payload, random.pick(&REGULAR_CYCLES).unwrap_or(10)),
        Traffic::Mixed => (payload, random.between(1, 400)),
        Traffic::EqualTotals => random.pick(&EQUAL_TOTALS).unwrap_or((201, 3)),
    };
    Message { payload, cycle }
}
