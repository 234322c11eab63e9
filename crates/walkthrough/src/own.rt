use crate::few_fast::FewFast;
use crate::solve::{print_no_setting, print_setting};
use crate::weighted::Weighted;
use limits::{Layer, Port, PortLimit};
use plan::Plan;
use planner::{Row, Solved, WorkRow, solve, work_row};
use std::{array, io};

/// The limit on links at a gap of 1 ms over that of a port.
type OwnLimit = Layer<FewFast, PortLimit>;

/// A work table for two links and the row more that a solve asks for, under that limit and by the weighted total.
type OwnTable = [WorkRow<OwnLimit, Weighted>; 3];

/// As many visits as there are beginnings of settings: 3 pairs of the first link, and with each of them 6 of the second.
const ALLOWANCE: u32 = 21;

/// Solves at the port with at most so many links at a gap of 1 ms and so many units for each byte, and says what is offered.
pub(crate) fn print_own_solve(
    rt: &impl Print,
    plan: &Plan,
    port: Port,
    most: u32,
    byte: u32,
) -> io::Result<()> {
    println!(rt;
        "   Solve with at most {most} of the links at a gap of 1 ms, and {byte} units for each byte:"
    )?;
    let limit = Layer {
        rule: FewFast { most },
        below: port.limit(),
    };
    let measure = Weighted { byte };
    let mut answer = [Row::default(); 2];
    let mut work: OwnTable = array::from_fn(|_| work_row(&limit, &measure));
    match solve(plan, &limit, &measure, ALLOWANCE, &mut answer, &mut work) {
        Ok(solved) => {
            print_setting(rt, port, &answer)?;
            print_total(rt, solved)
        }
        Err(fault) => print_no_setting(rt, fault),
    }
}

/// Says what the setting totals.
fn print_total(rt: &impl Print, solved: Solved<u64>) -> io::Result<()> {
    println!(rt;
        "   no setting that serves the links and is within the limit totals less: {} units, found in {} visits",
        solved.total, solved.visits
    )
}
