use crate::second::solve::{Asked, Setting};
use crate::second::told::{Refusal, refused};
use crate::second::total::{MeasureKind, Total};
use limits::{Burst, BurstTotal, Limit, Reserve};
use plan::Plan;
use planner::{Row, SolveFault, Solved, WorkRow, solve};

/// The most rows of a work table: those for six links and the row more, and two to spare.
pub(crate) const WORK_ROWS: usize = 9;

/// A solve by the planner, but for its limit and its tables.
#[derive(Clone, Copy)]
pub(crate) struct PlannerSolve<'a> {
    pub(crate) plan: &'a Plan,
    pub(crate) measure: MeasureKind,
    pub(crate) asked: Asked,
}

impl PlannerSolve<'_> {
    /// What the planner tells under the limit, with a work table for each measure.
    pub(crate) fn under<L: Limit>(
        self,
        limit: &L,
        by_reserve: &mut [WorkRow<L, Reserve>; WORK_ROWS],
        by_burst: &mut [WorkRow<L, Burst>; WORK_ROWS],
        answer: &mut [Row],
    ) -> Result<Setting, Refusal> {
        let PlannerSolve {
            plan,
            measure,
            asked,
        } = self;
        let rows = asked.work_rows.min(WORK_ROWS);
        match measure {
            MeasureKind::Reserve => told_by_reserve(solve(
                plan,
                limit,
                &Reserve,
                asked.allowance,
                answer,
                &mut by_reserve[..rows],
            )),
            MeasureKind::Burst => told_by_burst(solve(
                plan,
                limit,
                &Burst,
                asked.allowance,
                answer,
                &mut by_burst[..rows],
            )),
        }
    }
}

/// What a solve by reserve told.
fn told_by_reserve(told: Result<Solved<u32>, SolveFault>) -> Result<Setting, Refusal> {
    match told {
        Ok(solved) => Ok(Setting {
            total: Total::Reserve {
                units: u64::from(solved.total),
            },
            visits: u64::from(solved.visits),
        }),
        Err(fault) => Err(refused(fault.number(), fault.detail())),
    }
}

/// What a solve by burst told.
fn told_by_burst(told: Result<Solved<BurstTotal>, SolveFault>) -> Result<Setting, Refusal> {
    match told {
        Ok(solved) => Ok(Setting {
            total: Total::Burst {
                bytes: u64::from(solved.total.bytes),
                units: u64::from(solved.total.units),
            },
            visits: u64::from(solved.visits),
        }),
        Err(fault) => Err(refused(fault.number(), fault.detail())),
    }
}
