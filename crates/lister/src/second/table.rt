use crate::second::cycle::common_cycle;
use crate::second::told::{Refusal, first_no};
use plan::Call;
use std::alloc::{AllocError, Global};

/// A flow of a link.
#[derive(Clone, Copy, PartialEq, Eq)]
pub(crate) struct TableFlow {
    pub(crate) name: u16,
    pub(crate) link: u16,
    pub(crate) payload: u16,
    pub(crate) cycle: u16,
}

/// The links in the order of their adding, and the flows in the order of theirs.
#[derive(Drop)]
pub(crate) struct Table {
    pub(crate) links: Vec<u16>,
    pub(crate) flows: Vec<TableFlow>,
}

impl Table {
    /// A table with no link and no flow.
    pub(crate) fn new(alloc: Global) -> Table {
        Table {
            links: Vec::new(alloc),
            flows: Vec::new(alloc),
        }
    }

    /// Performs the call, or tells the first question that is answered no.
    pub(crate) fn perform(&mut self, call: Call) -> Result<Option<Refusal>, AllocError> {
        let refusal = self.refusal(call)?;
        if refusal.is_none() {
            self.enter(call)?;
        }
        Ok(refusal)
    }

    /// The first question of the call that is answered no.
    fn refusal(&self, call: Call) -> Result<Option<Refusal>, AllocError> {
        match call {
            Call::AddLink { name } => Ok(first_no(&[
                (4, self.links.len() < 64),
                (5, !self.has_link(name)),
            ])),
            Call::AddFlow {
                link,
                flow,
                payload,
                cycle,
            } => Ok(first_no(&[
                (6, self.has_link(link)),
                (7, self.link_of(flow).is_none()),
                (8, self.flows.len() < 256),
                (9, is_payload(payload)),
                (10, is_cycle(cycle)),
                (11, self.is_common(link, flow, cycle)?),
            ])),
            Call::Amend {
                flow,
                payload,
                cycle,
            } => {
                let link = self.link_of(flow);
                Ok(first_no(&[
                    (12, link.is_some()),
                    (9, is_payload(payload)),
                    (10, is_cycle(cycle)),
                    (11, self.is_common(link.unwrap_or(0), flow, cycle)?),
                ]))
            }
            Call::Withdraw { flow } => Ok(first_no(&[(12, self.link_of(flow).is_some())])),
        }
    }

    /// Enters what the call changes.
    fn enter(&mut self, call: Call) -> Result<(), AllocError> {
        match call {
            Call::AddLink { name } => self.links.push(name)?,
            Call::AddFlow {
                link,
                flow,
                payload,
                cycle,
            } => self.flows.push(TableFlow {
                name: flow,
                link,
                payload,
                cycle,
            })?,
            Call::Amend {
                flow,
                payload,
                cycle,
            } => {
                for entry in self.flows.iter_mut() {
                    if entry.name == flow {
                        entry.payload = payload;
                        entry.cycle = cycle;
                    }
                }
            }
            Call::Withdraw { flow } => self.flows.retain(|entry| entry.name != flow),
        }
        Ok(())
    }

    /// The flows of the link.
    pub(crate) fn flows_of(&self, link: u16) -> Result<Vec<TableFlow>, AllocError> {
        self.flows
            .iter()
            .copied()
            .filter(|entry| entry.link == link)
            .collect(*self.flows.allocator())
    }

    /// The first link that has no flow.
    pub(crate) fn first_without_flow(&self) -> Option<u16> {
        self.links
            .iter()
            .copied()
            .find(|link| self.flows.iter().all(|entry| entry.link != *link))
    }

    /// Does a link of that name stand?
    fn has_link(&self, name: u16) -> bool {
        self.links.contains(&name)
    }

    /// The link of the flow, if the flow stands.
    fn link_of(&self, flow: u16) -> Option<u16> {
        self.flows
            .iter()
            .find(|entry| entry.name == flow)
            .map(|entry| entry.link)
    }

    /// Would the common cycle of the link be short enough, if the flow had this cycle?
    fn is_common(&self, link: u16, flow: u16, cycle: u16) -> Result<bool, AllocError> {
        let mut cycles = Vec::new(*self.flows.allocator());
        for entry in &self.flows {
            if entry.link == link && entry.name != flow {
                cycles.push(entry.cycle)?;
            }
        }
        cycles.push(cycle)?;
        Ok(common_cycle(&cycles).is_some())
    }
}

/// Is it a payload, in bytes?
fn is_payload(bytes: u16) -> bool {
    (1..=8192).contains(&bytes)
}

/// Is it a cycle, in ms?
fn is_cycle(ms: u16) -> bool {
    (1..=10_000).contains(&ms)
}
