use crate::desk::{Desk, answer_table};
use crate::fault::Fault;
use crate::told::{Told, write_rows};
use crate::words::Words;
use limits::{Burst, Port, PortLimit, Reserve};
use planner::{PlannerCall, Row, SolveCall, SolveFault, Solved, WorkRow, solve, solve_after};
use std::alloc::{AllocError, Global};

/// `port RATE SHARE FLOOR`
pub(crate) fn make_port(
    desk: &mut Desk,
    words: &mut Words<'_>,
    told: &mut Told,
) -> Result<(), Fault> {
    match Port::new(words.long()?, words.long()?, words.long()?) {
        Ok(port) => {
            desk.port = Some(port);
            write!(
                told.text,
                "0 {} {} {}",
                port.rate(),
                port.share(),
                port.floor()
            )?;
        }
        Err(fault) => told.write_refusal(fault.number(), fault.detail(), &fault)?,
    }
    Ok(())
}

/// `tables ANSWER_ROWS WORK_ROWS`: the tables of the solves that come, made anew.
pub(crate) fn make_tables(
    alloc: Global,
    desk: &mut Desk,
    words: &mut Words<'_>,
    told: &mut Told,
) -> Result<(), Fault> {
    let answer_rows = usize::from(words.short()?);
    let work_rows = usize::from(words.short()?);
    desk.set_tables(alloc, answer_rows, work_rows)?;
    write_rows(told, &desk.by_reserve)?;
    Ok(())
}

/// `reserve ALLOWANCE`: the number and the detail, or the units and the visits, and then the rows of the answer table.
/// The issued plan has to tell the same, and so has a list of all calls of the case with this solve as its last.
pub(crate) fn solve_by_reserve(
    alloc: Global,
    desk: &mut Desk,
    work: &mut [WorkRow<PortLimit, Reserve>],
    words: &mut Words<'_>,
    told: &mut Told,
) -> Result<(), Fault> {
    let last = SolveCall {
        limit: desk.port()?.limit(),
        measure: Reserve,
        allowance: words.long()?,
    };
    let work = work.get_mut(..desk.work_rows).ok_or(Fault::Unreadable)?;
    let before = desk.by_reserve.clone()?;
    let rows = &mut desk.by_reserve;
    let ending = solve(
        &desk.plan,
        &last.limit,
        &Reserve,
        last.allowance,
        rows,
        work,
    );
    match ending {
        Ok(solved) => write!(told.text, "0 {} {}", solved.total, solved.visits)?,
        Err(fault) => told.write_refusal(fault.number(), fault.detail(), &fault)?,
    }
    write_rows(told, &desk.by_reserve)?;
    if !ends_so_where_issued(desk, &last, before, work, ending) {
        told.text
            .push_str(" and something else where the plan is issued")?;
    }
    if !ends_so_as_list(alloc, desk, &last, work, ending)? {
        told.text
            .push_str(" and something else where all calls are one list")?;
    }
    desk.calls.push(PlannerCall::Solve(last))?;
    Ok(())
}

/// Does the solve of the issued plan end so, and leave the rows of the desk in a table that held these before?
fn ends_so_where_issued(
    desk: &Desk,
    last: &SolveCall<PortLimit, Reserve>,
    before: Vec<Row>,
    work: &mut [WorkRow<PortLimit, Reserve>],
    ending: Result<Solved<u32>, SolveFault>,
) -> bool {
    let mut rows = before;
    let issued = desk.issued();
    issued.solve(&last.limit, &Reserve, last.allowance, &mut rows, work) == ending
        && rows.as_slice() == desk.by_reserve.as_slice()
}

/// Does the list of all calls so far, with this solve as its last, end so, and leave the rows of the desk?
fn ends_so_as_list(
    alloc: Global,
    desk: &Desk,
    last: &SolveCall<PortLimit, Reserve>,
    work: &mut [WorkRow<PortLimit, Reserve>],
    ending: Result<Solved<u32>, SolveFault>,
) -> Result<bool, AllocError> {
    let mut rows = answer_table(alloc, desk.by_reserve.len())?;
    let by_list = solve_after(&desk.calls, last, &mut rows, work);
    Ok(by_list == ending && rows.as_slice() == desk.by_reserve.as_slice())
}

/// `burst ALLOWANCE`: the number and the detail, or the bytes, the units and the visits, and then the rows of the
/// answer table. The issued plan has to tell the same.
pub(crate) fn solve_by_burst(
    alloc: Global,
    desk: &mut Desk,
    work: &mut [WorkRow<PortLimit, Burst>],
    words: &mut Words<'_>,
    told: &mut Told,
) -> Result<(), Fault> {
    let limit = desk.port()?.limit();
    let allowance = words.long()?;
    let work = work.get_mut(..desk.work_rows).ok_or(Fault::Unreadable)?;
    let mut issued_rows = desk.by_burst.clone()?;
    let by_issued = desk
        .issued()
        .solve(&limit, &Burst, allowance, &mut issued_rows, work);
    let outcome = solve(
        &desk.plan,
        &limit,
        &Burst,
        allowance,
        &mut desk.by_burst,
        work,
    );
    match outcome {
        Ok(solved) => write!(
            told.text,
            "0 {} {} {}",
            solved.total.bytes, solved.total.units, solved.visits
        )?,
        Err(fault) => told.write_refusal(fault.number(), fault.detail(), &fault)?,
    }
    write_rows(told, &desk.by_burst)?;
    if by_issued != outcome || issued_rows.as_slice() != desk.by_burst.as_slice() {
        told.text
            .push_str(" and something else where the plan is issued")?;
    }
    Ok(())
}
