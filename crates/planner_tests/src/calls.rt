//! A list of calls with a last solve.
use crate::plans::{BEFORE, row};
use crate::solving::found;
use limits::{Burst, BurstTotal, Floor};
use plan::Call;
use planner::{PlannerCall, SolveCall, SolveFault, WorkRow, solve_after, work_row};
use std::array;
use std::test::Fail;

/// Adds a flow.
fn add(link: u16, flow: u16, payload: u16, cycle: u16) -> PlannerCall<Floor, Burst> {
    PlannerCall::Edit(Call::AddFlow {
        link,
        flow,
        payload,
        cycle,
    })
}

/// A solve by burst under a floor alone.
fn from_gap(gap: u32) -> SolveCall<Floor, Burst> {
    SolveCall {
        limit: Floor { gap },
        measure: Burst,
        allowance: u32::MAX,
    }
}

/// A link that is solved for, and then loses a flow and all its candidates.
fn dwindling_calls() -> [PlannerCall<Floor, Burst>; 6] {
    [
        PlannerCall::Edit(Call::AddLink { name: 1 }),
        add(1, 1, 80, 10),
        add(1, 2, 100, 12),
        PlannerCall::Solve(from_gap(4)),
        PlannerCall::Edit(Call::Withdraw { flow: 2 }),
        PlannerCall::Edit(Call::Amend {
            flow: 1,
            payload: 8192,
            cycle: 5,
        }),
    ]
}

// By burst, under a floor that is another for each solve.
#[test]
fn solves_under_limits_of_their_own(rt: HostRuntime) -> Result<(), Fail> {
    let calls = dwindling_calls();
    let burst = |bytes, units| BurstTotal { bytes, units };
    let mut work: [WorkRow<Floor, Burst>; 2] = array::from_fn(|_| work_row(
        &Floor { gap: 1 },
        &Burst,
    ));
    for (count, gap, told, first) in [
        (3, 2, found(burst(107, 6848), 3), row(1, 2, 40)),
        (4, 8, Err(SolveFault::NothingWithin), row(1, 4, 100)),
        (5, 8, found(burst(147, 2352), 4), row(1, 8, 80)),
        (
            6,
            1,
            Err(SolveFault::LinkWithoutCandidate { link: 1 }),
            row(1, 4, 100),
        ),
    ] {
        let mut answer = [BEFORE];
        assert_eq!(rt;
            (
                solve_after(&calls[..count], &from_gap(gap), &mut answer, &mut work),
                answer
            ),
            (told, [first]),
            "after {count} calls"
        );
    }
    Ok(())
}
