use crate::layers::{Conditions, Layers, told_by_planner};
use crate::random::Random;
use crate::report::Report;
use crate::second::port::port_refusal;
use crate::second::solve::{Asked, Listing, Setting};
use crate::second::told::Refusal;
use crate::subject::Subject;
use limits::Pair;
use plan::Plan;
use planner::Row;
use std::alloc::{AllocError, Global};
use std::io;

/// A plan that is solved, the list of its selections, and what it is solved under.
#[derive(Clone, Copy)]
pub(crate) struct Trial<'a> {
    pub(crate) subject: Subject,
    pub(crate) plan: &'a Plan,
    pub(crate) listing: &'a Listing,
    pub(crate) conditions: Conditions,
}

/// Solves with several allowances about the visits, and tells where the planner and the list differ.
pub(crate) fn hold_solves(
    report: &mut Report<'_, impl Print>,
    alloc: Global,
    random: &mut Random,
    trial: Trial<'_>,
) -> io::Result<()> {
    let visits = u32::try_from(trial.listing.visits).unwrap_or(u32::MAX);
    let others = [0, u32::MAX, visits.saturating_add(1), visits / 2];
    let other = random.pick(&others).unwrap_or(0);
    for allowance in [visits, visits.saturating_sub(1), other] {
        let links = trial.plan.links().len();
        let asked = Asked {
            allowance,
            answer_rows: random_rows(random, links),
            work_rows: random_rows(random, links.saturating_add(1)),
        };
        let before = random_answer(alloc, random, asked.answer_rows)?;
        hold_solve(report, alloc, trial, asked, &before)?;
    }
    Ok(())
}

/// How many rows a table has that needs so many: now and then too few.
fn random_rows(random: &mut Random, needed: usize) -> usize {
    if random.once_in(20) {
        return random.below(needed as u64) as usize;
    }
    needed.saturating_add(random.below(3) as usize)
}

/// An answer table of so many rows that hold anything.
fn random_answer(alloc: Global, random: &mut Random, rows: usize) -> Result<Vec<Row>, AllocError> {
    let mut answer = Vec::new(alloc);
    for _ in 0..rows {
        answer.push(Row {
            link: random.between(0, 65_535),
            pair: Pair {
                gap: random.between(0, 65_535),
                mtu: random.between(0, 65_535),
            },
        })?;
    }
    Ok(answer)
}

/// Solves once, and tells where the planner and the list differ in what they tell or in a row of the answer table.
pub(crate) fn hold_solve(
    report: &mut Report<'_, impl Print>,
    alloc: Global,
    trial: Trial<'_>,
    asked: Asked,
    before: &[Row],
) -> io::Result<()> {
    let conditions = trial.conditions;
    let mut answer = before.to_vec(alloc)?;
    let by_planner = told_by_planner(trial.plan, conditions, asked, &mut answer);
    let by_list = told_by_list(trial.listing, conditions, asked);
    let mut rows = before.to_vec(alloc)?;
    if by_list.is_ok() {
        for (row, named) in rows.iter_mut().zip(&trial.listing.rows) {
            *row = *named;
        }
    }
    report.tally.note_solve(by_list.err());
    if by_planner == by_list && answer.as_slice() == rows.as_slice() {
        return Ok(());
    }
    report.note_difference(
        trial.subject,
        format_args!(
            "{conditions:?}, {asked:?}: the planner tells {by_planner:?} in {answer:?}, the list {by_list:?} in {rows:?}"
        ),
    )
}

/// What the list tells: at first whether the figures make a port, where a port is wanted.
pub(crate) fn told_by_list(
    listing: &Listing,
    conditions: Conditions,
    asked: Asked,
) -> Result<Setting, Refusal> {
    if conditions.layers == Layers::Port
        && let Some(refusal) = port_refusal(conditions.figures)
    {
        return Err(refusal);
    }
    listing.told(asked)
}
