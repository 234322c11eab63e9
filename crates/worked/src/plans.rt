//! The calls that build the plans of the worked ports.
use crate::worked_port::CALL_PLACES;
use plan::Call;

/// A call that adds a flow: its link, its name, its payload and its cycle.
macro_rules! flow {
    ($link:expr, $flow:expr, $payload:expr, $cycle:expr) => {
        Call::AddFlow {
            link: $link,
            flow: $flow,
            payload: $payload,
            cycle: $cycle,
        }
    };
}

/// Link 1 with one flow of this payload and cycle.
macro_rules! one_flow {
    ($payload:expr, $cycle:expr) => {
        [
            Some(Call::AddLink { name: 1 }),
            Some(flow!(1, 1, $payload, $cycle)),
            None,
            None,
            None,
            None,
        ]
    };
}

/// Link 1 with 80 bytes every 10 ms and 100 bytes every 12 ms.
pub(crate) const ONE_LINK: [Option<Call>; CALL_PLACES] = [
    Some(Call::AddLink { name: 1 }),
    Some(flow!(1, 1, 80, 10)),
    Some(flow!(1, 2, 100, 12)),
    None,
    None,
    None,
];

/// Link 1 with 200 bytes every 80 ms and 250 every 160 ms, and link 2 with 250 bytes every 220 ms and 200 every 40 ms.
pub(crate) const TWO_LINKS: [Option<Call>; CALL_PLACES] = [
    Some(Call::AddLink { name: 1 }),
    Some(flow!(1, 1, 200, 80)),
    Some(flow!(1, 2, 250, 160)),
    Some(Call::AddLink { name: 2 }),
    Some(flow!(2, 3, 250, 220)),
    Some(flow!(2, 4, 200, 40)),
];

/// Link 1 with 8,192 bytes every 6 ms.
pub(crate) const EVERY_6: [Option<Call>; CALL_PLACES] = one_flow!(8192, 6);

/// Link 1 with 8,192 bytes every 5 ms.
pub(crate) const EVERY_5: [Option<Call>; CALL_PLACES] = one_flow!(8192, 5);

/// Link 1 with 1,471 bytes every 128 ms.
pub(crate) const EVERY_128: [Option<Call>; CALL_PLACES] = one_flow!(1471, 128);

/// Link 1 with 1,471 bytes every 127 ms.
pub(crate) const EVERY_127: [Option<Call>; CALL_PLACES] = one_flow!(1471, 127);

/// Link 1 with one byte every 999 ms.
pub(crate) const EVERY_999: [Option<Call>; CALL_PLACES] = one_flow!(1, 999);

/// Link 1 with one byte every 1,001 ms.
pub(crate) const EVERY_1001: [Option<Call>; CALL_PLACES] = one_flow!(1, 1001);
