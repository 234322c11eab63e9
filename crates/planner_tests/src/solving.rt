use planner::{SolveFault, Solved};

/// What is told of a setting that totals so much, after so many visits.
pub(crate) fn found<T>(total: T, visits: u32) -> Result<Solved<T>, SolveFault> {
    Ok(Solved { total, visits })
}
