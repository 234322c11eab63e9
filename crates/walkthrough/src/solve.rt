use crate::check::print_use;
use crate::notes::{print_accepted, print_refused, print_rows};
use limits::{Port, PortLimit, Reserve, UNITS_PER_KBIT};
use plan::{Call, Plan};
use planner::{
    IssuedPlan, PlannerCall, Row, SolveCall, SolveFault, Solved, WorkRow, solve, solve_after,
    work_row,
};
use std::{array, io};

/// A work table for two links and the row more that a solve asks for, by reserve under a port's limit.
type WorkTable = [WorkRow<PortLimit, Reserve>; 3];

/// Solves at the port by reserve, and says what is offered.
pub(crate) fn print_solve(
    rt: &impl Print,
    plan: &Plan,
    port: Port,
    allowance: u32,
) -> io::Result<()> {
    print_question(rt, port, allowance)?;
    let limit = port.limit();
    let mut answer = [Row::default(); 2];
    let mut work = work_table(&limit);
    let told = solve(plan, &limit, &Reserve, allowance, &mut answer, &mut work);
    print_offer(rt, port, told, &answer)
}

/// Solves an issued plan at the port by reserve, and says what is offered.
pub(crate) fn print_issued_solve(
    rt: &impl Print,
    issued: &IssuedPlan,
    port: Port,
    allowance: u32,
) -> io::Result<()> {
    print_question(rt, port, allowance)?;
    let limit = port.limit();
    let mut answer = [Row::default(); 2];
    let mut work = work_table(&limit);
    let told = issued.solve(&limit, &Reserve, allowance, &mut answer, &mut work);
    print_offer(rt, port, told, &answer)
}

/// Performs edits from an empty plan and then solves at the port, all in one call, and says what is offered.
pub(crate) fn print_solve_after(
    rt: &impl Print,
    edits: [Call; 14],
    port: Port,
    allowance: u32,
) -> io::Result<()> {
    let last = SolveCall {
        limit: port.limit(),
        measure: Reserve,
        allowance,
    };
    let calls = edits.map(|edit| PlannerCall::Edit(edit));
    let mut answer = [Row::default(); 2];
    let mut work = work_table(&last.limit);
    let told = solve_after(&calls, &last, &mut answer, &mut work);
    print_offer(rt, port, told, &answer)
}

/// Says at which rate a solve is asked for, and with how many visits.
fn print_question(rt: &impl Print, port: Port, allowance: u32) -> io::Result<()> {
    println!(rt;
        "   Solve at {} kbit/s, with at most {allowance} visits:",
        port.rate()
    )
}

/// A work table to begin with.
fn work_table(limit: &PortLimit) -> WorkTable {
    array::from_fn(|_| work_row(limit, &Reserve))
}

/// Says what a solve by reserve offers, or why it offers nothing.
fn print_offer(
    rt: &impl Print,
    port: Port,
    told: Result<Solved<u32>, SolveFault>,
    answer: &[Row; 2],
) -> io::Result<()> {
    match told {
        Ok(solved) => {
            print_setting(rt, port, answer)?;
            print_reserve(rt, solved)
        }
        Err(fault) => print_no_setting(rt, fault),
    }
}

/// Says which setting is offered, and what it takes of the port.
pub(crate) fn print_setting(rt: &impl Print, port: Port, answer: &[Row; 2]) -> io::Result<()> {
    print_accepted(rt)?;
    print_rows(rt, answer)?;
    print_use(rt, port, answer)
}

/// Says why no setting is offered, and what that means for the port.
pub(crate) fn print_no_setting(rt: &impl Print, fault: SolveFault) -> io::Result<()> {
    print_refused(rt, fault.number(), fault.detail(), &fault)?;
    print_meaning(rt, fault)
}

/// Says what the setting reserves, in kbit/s with four decimals: enough for sixteenths.
fn print_reserve(rt: &impl Print, solved: Solved<u32>) -> io::Result<()> {
    let units = u64::from(solved.total);
    println!(rt;
        "   no setting that serves the links and is within the limit reserves less: {}.{:04} kbit/s, found in {} visits",
        units / UNITS_PER_KBIT,
        units % UNITS_PER_KBIT * 10_000 / UNITS_PER_KBIT,
        solved.visits
    )
}

/// Says what a refusal means for the port.
fn print_meaning(rt: &impl Print, fault: SolveFault) -> io::Result<()> {
    if fault.is_unmeetable() {
        return println!(rt;
            "   the port is unmeetable: no gaps and MTUs that serve the links are within the limit"
        );
    }
    if fault == SolveFault::Spent {
        return println!(rt; "   nothing is said of the port: the search needs more visits");
    }
    Ok(())
}
