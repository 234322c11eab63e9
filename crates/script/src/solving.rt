ghost use Rattle.std.specs.Prelude.{◌≡◌, ◌≤◌, length, IfErr};
ghost use Rattle.limits.specs.Burst.{burst};
ghost use Rattle.limits.specs.Port.{layers_breach};
ghost use Rattle.limits.specs.Selection.{Selection, max_pairs};
ghost use Rattle.plan.specs.Held.{standing};
ghost use Rattle.planner.specs.Named.{aim_of};
ghost use Rattle.planner.specs.Setting.{pairs};
ghost use Rattle.planner.specs.SolveFault.{number as solve_number, detail as solve_detail};
ghost use Rattle.script.specs.declared.command.Command.TheVariants.{Solve};
ghost use Rattle.script.specs.Outcome.{outcome, Source};
ghost use Rattle.script.specs.RunFault.{number, detail};
ghost use Rattle.script.specs.Told.{offer_of, solve_told, reserve_aim, burst_aim, measure_told};

use crate::offer::Offer;
use crate::run_fault::Cause;
use arrayvec::ArrayVec;
use limits::{Burst, BurstTotal, MAX_PAIRS, Measure, PortLimit, Reserve};
use plan::Plan;
use planner::{Row, SolveFault, WorkRow, solve, work_row};
use std::array;

/// The rows that a work table needs for any plan.
const WORK_ROWS: usize = MAX_PAIRS + 1;

/// A work table for any plan, under the limit of a port and by the measure.
type WorkTable<M> = [WorkRow<PortLimit, M>; WORK_ROWS];

/// Solves by the measure of the byte: 1 for the reserve, 2 for the burst.
pub(crate) fn solve_by_measure(
    plan: &Plan,
    limit: &PortLimit,
    measure: u8,
    allowance: u32,
) -> Result<Offer, Cause>
    ensures told { outcome number detail result ≡ measure_told limit.now (standing plan.now) measure allowance }
    ensures source { IfErr result (Source (Solve measure allowance)) }
{
    match measure {
        1 => Ok(solve_by_reserve(plan, limit, allowance)?),
        2 => Ok(solve_by_burst(plan, limit, allowance)?),
        _ => Err(Cause::UnknownMeasure),
    }
}

/// Solves by the reserve.
fn solve_by_reserve(plan: &Plan, limit: &PortLimit, allowance: u32) -> Result<Offer, SolveFault>
    ensures { outcome solve_number solve_detail result ≡ solve_told (reserve_aim limit.now) (standing plan.now) allowance }
{
    let mut work: WorkTable<Reserve> = array::from_fn(|_| work_row(limit, &Reserve));
    solve_by(plan, limit, &Reserve, allowance, &mut work)
}

/// Solves by the burst.
fn solve_by_burst(plan: &Plan, limit: &PortLimit, allowance: u32) -> Result<Offer, SolveFault>
    ensures { outcome solve_number solve_detail result ≡ solve_told (burst_aim limit.now) (standing plan.now) allowance }
{
    let mut work: WorkTable<Burst> = array::from_fn(|_| work_row(limit, &Burst));
    solve_by(plan, limit, &Burst, allowance, &mut work)
}

/// Solves by the measure, with a work table for any plan.
fn solve_by<M: Measure>(
    plan: &Plan,
    limit: &PortLimit,
    measure: &M,
    allowance: u32,
    work: &mut WorkTable<M>,
) -> Result<Offer, SolveFault>
    ensures { outcome solve_number solve_detail result ≡ solve_told (aim_of (layers_breach limit.now) (M.totalled measure.now) (M.atmost measure.now)) (standing plan.now) allowance }
{
    let mut answer = [Row::default(); MAX_PAIRS];
    let solved = solve(plan, limit, measure, allowance, &mut answer, work)?;
    Ok(offer_of(&answer[..plan.links().len()], solved.visits))
}

/// What a setting offers.
fn offer_of(setting: &[Row], visits: u32) -> Offer
    requires { Selection (pairs setting.now) }
    ensures { result ≡ offer_of setting.now visits }
{
    let BurstTotal { bytes, units } = burst_of(setting);
    Offer {
        units,
        bytes,
        visits,
        rows: rows_of(setting),
    }
}

/// The burst of a setting.
fn burst_of(setting: &[Row]) -> BurstTotal
    requires { Selection (pairs setting.now) }
    ensures { result ≡ burst (pairs setting.now) }
{
    let mut total = Burst.empty_total();
    for row in setting {
        total = Burst.total_with(total, row.pair, Burst.cost_of(row.pair));
    }
    total
}

/// The rows of a setting, to keep.
fn rows_of(setting: &[Row]) -> ArrayVec<Row, MAX_PAIRS>
    requires { length setting.now ≤ max_pairs }
    ensures { result.items ≡ setting.now }
{
    let mut rows = ArrayVec::new();
    rows.try_extend_from_slice(setting).unwrap();
    rows
}
