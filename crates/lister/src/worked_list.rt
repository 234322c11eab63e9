use crate::both::Both;
use crate::layers::{Conditions, Layers};
use crate::links::{hold_pairs, places_of};
use crate::report::Report;
use crate::second::candidates::candidates;
use crate::second::port::Figures;
use crate::second::solve::{Asked, Setting, all_candidates};
use crate::second::told::Refusal;
use crate::second::total::{MeasureKind, Total};
use crate::solves::{Trial, hold_solve, told_by_list};
use crate::standing::list_under;
use crate::subject::Subject;
use limits::BurstTotal;
use plan::Call;
use planner::{Row, Solved};
use std::alloc::Global;
use std::io;
use worked::{Asked as WorkedQuestion, By, Told, WORKED_LINKS, worked_ports};

/// Holds the planner against the second one on the worked ports, and the second one against what was worked out.
pub(crate) fn hold_worked_ports(
    report: &mut Report<'_, impl Print>,
    alloc: Global,
) -> io::Result<()> {
    for (place, port) in worked_ports().iter().enumerate() {
        let mut calls = Vec::new(alloc);
        for call in port.calls.into_iter().flatten() {
            calls.push(call)?;
        }
        report.tally.note_worked();
        hold_question(
            report,
            alloc,
            Subject::Worked(place),
            &calls,
            port.asked,
            port.told,
        )?;
    }
    Ok(())
}

/// Holds the planners on what is asked after these calls, and the second one on what is told.
pub(crate) fn hold_question(
    report: &mut Report<'_, impl Print>,
    alloc: Global,
    subject: Subject,
    calls: &[Call],
    asked: WorkedQuestion,
    told: Told,
) -> io::Result<()> {
    let mut both = Both::new(alloc);
    for call in calls {
        both.perform(report, subject, *call)?;
    }
    let by_list = ask(report, alloc, subject, &mut both, asked)?;
    if by_list == told {
        return Ok(());
    }
    report.note_difference(
        subject,
        format_args!(
            "{asked:?}: the second planner tells {by_list:?}, and {told:?} was worked out"
        ),
    )
}

/// Asks both planners, and tells what the second one tells.
fn ask(
    report: &mut Report<'_, impl Print>,
    alloc: Global,
    subject: Subject,
    both: &mut Both,
    asked: WorkedQuestion,
) -> io::Result<Told> {
    match asked {
        WorkedQuestion::Pairs { link } => ask_pairs(report, alloc, subject, both, link),
        WorkedQuestion::Edit(call) => Ok(
            both.perform(report, subject, call)?
                .map_or(Told::Accepted, told_refusal),
        ),
        WorkedQuestion::Solve {
            rate,
            share,
            floor,
            by,
            allowance,
        } => {
            let conditions = Conditions {
                layers: Layers::Port,
                figures: Figures { rate, share, floor },
                measure: measure_of(by),
            };
            ask_solve(report, alloc, subject, both, conditions, allowance)
        }
    }
}

/// Asks for the pairs of a link.
fn ask_pairs(
    report: &mut Report<'_, impl Print>,
    alloc: Global,
    subject: Subject,
    both: &Both,
    link: u16,
) -> io::Result<Told> {
    let found = candidates(alloc, &both.table.flows_of(link)?)?;
    hold_pairs(report, both, subject, link, &found)?;
    Ok(Told::Pairs(places_of(&found)))
}

/// The measure of a worked port.
fn measure_of(by: By) -> MeasureKind {
    match by {
        By::Reserve => MeasureKind::Reserve,
        By::Burst => MeasureKind::Burst,
    }
}

/// Solves with tables for as many links as a worked port may have.
fn ask_solve(
    report: &mut Report<'_, impl Print>,
    alloc: Global,
    subject: Subject,
    both: &Both,
    conditions: Conditions,
    allowance: u32,
) -> io::Result<Told> {
    let candidates = all_candidates(alloc, &both.table)?;
    let listing = list_under(report, alloc, &both.table, &candidates, conditions)?;
    let trial = Trial {
        subject,
        plan: &both.plan,
        listing: &listing,
        conditions,
    };
    let asked = Asked {
        allowance,
        answer_rows: WORKED_LINKS,
        work_rows: WORKED_LINKS + 1,
    };
    hold_solve(report, alloc, trial, asked, &[Row::default(); WORKED_LINKS])?;
    match told_by_list(&listing, conditions, asked) {
        Ok(setting) => Ok(told_setting(setting, &listing.rows)),
        Err(refusal) => Ok(told_refusal(refusal)),
    }
}

/// A refusal, as the list of worked ports tells it.
fn told_refusal(refusal: Refusal) -> Told {
    Told::Refused {
        number: refusal.number,
        detail: refusal.detail,
    }
}

/// A setting, as the list of worked ports tells it.
fn told_setting(setting: Setting, named: &[Row]) -> Told {
    let mut rows = [Row::default(); WORKED_LINKS];
    for (row, named) in rows.iter_mut().zip(named) {
        *row = *named;
    }
    let visits = narrow(setting.visits);
    match setting.total {
        Total::Reserve { units } => Told::ByReserve {
            solved: Solved {
                total: narrow(units),
                visits,
            },
            rows,
        },
        Total::Burst { bytes, units } => Told::ByBurst {
            solved: Solved {
                total: BurstTotal {
                    bytes: narrow(bytes),
                    units: narrow(units),
                },
                visits,
            },
            rows,
        },
    }
}

/// The number in 32 bits.
fn narrow(number: u64) -> u32 {
    u32::try_from(number).unwrap_or(u32::MAX)
}
