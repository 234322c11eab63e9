use crate::fault::Fault;
use limits::{Pair, Port, PortLimit, Reserve};
use plan::{Call, Plan, PlanFault};
use planner::{IssuedPlan, PlannerCall, Row};
use std::alloc::{AllocError, Global};

/// What stands in a row of an answer table before a solve.
pub(crate) const BEFORE: Row = Row {
    link: 9999,
    pair: Pair { gap: 3, mtu: 9999 },
};

/// How many rows an answer table has where a case says nothing of it.
const ANSWER_ROWS: usize = 4;

/// What the calls of a case work on.
#[derive(Drop)]
pub(crate) struct Desk {
    pub(crate) plan: Plan,
    /// The edits so far, refused ones included.
    pub(crate) edits: Vec<Call>,
    /// The edits and the solves by reserve so far, refused ones included.
    pub(crate) calls: Vec<PlannerCall<PortLimit, Reserve>>,
    pub(crate) port: Option<Port>,
    /// The answer tables of the solves by reserve and of those by burst.
    pub(crate) by_reserve: Vec<Row>,
    pub(crate) by_burst: Vec<Row>,
    pub(crate) work_rows: usize,
    /// The bytes of a script so far.
    pub(crate) script: Vec<u8>,
    /// The words of the last refusal.
    pub(crate) refusal: String,
}

impl Desk {
    /// Nothing stands, there is no port, and the tables are long enough for four links.
    pub(crate) fn new(alloc: Global) -> Result<Desk, AllocError> {
        Ok(Desk {
            plan: Plan::open(),
            edits: Vec::new(alloc),
            calls: Vec::new(alloc),
            port: None,
            by_reserve: answer_table(alloc, ANSWER_ROWS)?,
            by_burst: answer_table(alloc, ANSWER_ROWS)?,
            work_rows: ANSWER_ROWS + 1,
            script: Vec::new(alloc),
            refusal: String::new(alloc),
        })
    }

    /// Makes the tables anew.
    pub(crate) fn set_tables(
        &mut self,
        alloc: Global,
        answer_rows: usize,
        work_rows: usize,
    ) -> Result<(), AllocError> {
        self.by_reserve = answer_table(alloc, answer_rows)?;
        self.by_burst = answer_table(alloc, answer_rows)?;
        self.work_rows = work_rows;
        Ok(())
    }

    /// Performs an edit.
    pub(crate) fn edit(&mut self, call: Call) -> Result<Result<(), PlanFault>, AllocError> {
        self.edits.push(call)?;
        self.calls.push(PlannerCall::Edit(call))?;
        Ok(self.plan.perform(call))
    }

    /// Does the same stand where the edits are replayed as a list?
    pub(crate) fn is_replayed(&self) -> bool {
        let replayed = Plan::replay(&self.edits);
        replayed.links() == self.plan.links() && replayed.flows() == self.plan.flows()
    }

    /// The plan as it stands, issued.
    pub(crate) fn issued(&self) -> IssuedPlan {
        IssuedPlan::issue(Plan::replay(&self.edits))
    }

    /// The port, where there is one.
    pub(crate) fn port(&self) -> Result<Port, Fault> {
        self.port.ok_or(Fault::Unreadable)
    }
}

/// An answer table of so many rows.
pub(crate) fn answer_table(alloc: Global, rows: usize) -> Result<Vec<Row>, AllocError> {
    let mut table = Vec::new(alloc);
    for _ in 0..rows {
        table.push(BEFORE)?;
    }
    Ok(table)
}
