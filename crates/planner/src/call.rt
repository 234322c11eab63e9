use plan::Call;

/// A solve, with what it is handed beside the plan and the tables.
#[derive(Clone, Copy, Debug, PartialEq, Eq)]
pub struct SolveCall<L, M> {
    pub limit: L,
    pub measure: M,
    pub allowance: u32,
}

/// A call of a planner: one that edits its plan, or a solve.
#[derive(Clone, Copy, Debug, PartialEq, Eq)]
pub enum PlannerCall<L, M> {
    Edit(Call),
    Solve(SolveCall<L, M>),
}
