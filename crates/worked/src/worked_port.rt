use limits::{BurstTotal, GAP_COUNT, Pair};
use plan::Call;
use planner::{Row, Solved};

/// The most calls that build the plan of a worked port.
pub const CALL_PLACES: usize = 6;

/// The most links of a worked port, and so the rows of the answer table that its solve fills.
pub const WORKED_LINKS: usize = 2;

/// A worked port: the calls that build its plan, what is asked then, and what is told.
#[derive(Clone, Copy, Debug, PartialEq, Eq)]
pub struct WorkedPort {
    /// The calls in their order, made of an empty plan; none at the places behind them.
    pub calls: [Option<Call>; CALL_PLACES],
    pub asked: Asked,
    pub told: Told,
}

/// What is asked of a plan.
#[derive(Clone, Copy, Debug, PartialEq, Eq)]
pub enum Asked {
    /// The pairs of a link.
    Pairs {
        link: u16,
    },
    /// One more call.
    Edit(Call),
    /// A solve at a port of these figures, with an answer table of `WORKED_LINKS` default rows, and a work table of one row
    /// more.
    Solve {
        rate: u32,
        share: u32,
        floor: u32,
        by: By,
        allowance: u32,
    },
}

/// The measure of a solve.
#[derive(Clone, Copy, Debug, PartialEq, Eq)]
pub enum By {
    Reserve,
    Burst,
}

/// What is told.
#[derive(Clone, Copy, Debug, PartialEq, Eq)]
pub enum Told {
    /// The number and the detail of a refusal.
    Refused {
        number: u8,
        detail: u32,
    },
    /// The call is accepted.
    Accepted,
    /// The candidate at each gap.
    Pairs([Option<Pair>; GAP_COUNT]),
    /// What a solve by reserve reports, and the answer table.
    ByReserve {
        solved: Solved<u32>,
        rows: [Row; WORKED_LINKS],
    },
    /// What a solve by burst reports, and the answer table.
    ByBurst {
        solved: Solved<BurstTotal>,
        rows: [Row; WORKED_LINKS],
    },
}
