use crate::report::Report;
use crate::second::table::{Table, TableFlow};
use crate::second::told::{Refusal, refused};
use crate::subject::Subject;
use plan::{Call, Flow, Plan};
use std::alloc::Global;
use std::io;

/// The plan of the planner and the table of the second planner, which perform the same calls.
#[derive(Drop)]
pub(crate) struct Both {
    pub(crate) plan: Plan,
    pub(crate) table: Table,
}

impl Both {
    /// Both with nothing in them.
    pub(crate) fn new(alloc: Global) -> Both {
        Both {
            plan: Plan::open(),
            table: Table::new(alloc),
        }
    }

    /// Performs the call on both, and tells the refusal by the second planner. A difference in what the two tell, or in what
    /// stands afterwards, is reported.
    pub(crate) fn perform(
        &mut self,
        report: &mut Report<'_, impl Print>,
        subject: Subject,
        call: Call,
    ) -> io::Result<Option<Refusal>> {
        let by_planner = self.perform_on_plan(call);
        let by_second = self.table.perform(call)?;
        report.tally.note_edit(by_second);
        if by_planner != by_second || !self.stand_alike() {
            report.note_difference(
                subject,
                format_args!(
                    "{call:?}: the planner tells {by_planner:?}, the second {by_second:?}"
                ),
            )?;
        }
        Ok(by_second)
    }

    /// Performs the call on the plan.
    fn perform_on_plan(&mut self, call: Call) -> Option<Refusal> {
        match self.plan.perform(call) {
            Ok(()) => None,
            Err(fault) => Some(refused(fault.number(), fault.detail())),
        }
    }

    /// Do the same links stand in the same order, and the same flows?
    fn stand_alike(&self) -> bool {
        let flows = self.plan.flows();
        self.plan.links() == self.table.links.as_slice()
            && flows.len() == self.table.flows.len()
            && flows.iter().all(|flow| self.has_flow(flow))
    }

    /// Is the flow in the table?
    fn has_flow(&self, flow: &Flow) -> bool {
        self.table.flows.contains(&TableFlow {
            name: flow.name,
            link: flow.link,
            payload: flow.payload,
            cycle: flow.cycle,
        })
    }
}
