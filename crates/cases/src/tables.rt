use limits::{Burst, Floor, Jitter, Layer, Open, PortLimit, Reserve, Share};
use planner::{WorkRow, work_row};
use std::array;

/// The rows of a work table that serves as many links as there may be.
pub(crate) const WORK_ROWS: usize = 65;

/// The work tables of all solves: each finds there what the solves before it have left.
#[derive(Drop)]
pub(crate) struct Tables {
    pub(crate) by_reserve: [WorkRow<PortLimit, Reserve>; WORK_ROWS],
    pub(crate) by_burst: [WorkRow<PortLimit, Burst>; WORK_ROWS],
}

impl Tables {
    /// Work tables that no solve has used.
    pub(crate) fn new() -> Tables {
        let limit = Layer {
            rule: Floor { gap: 1 },
            below: Layer {
                rule: Share { rate: 1 },
                below: Layer {
                    rule: Jitter { rate: 1 },
                    below: Open,
                },
            },
        };
        Tables {
            by_reserve: array::from_fn(|_| work_row(&limit, &Reserve)),
            by_burst: array::from_fn(|_| work_row(&limit, &Burst)),
        }
    }
}
