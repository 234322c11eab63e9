use crate::command::Command;
use std::alloc::{AllocError, Global};

/// The gaps that a link may be given, in ms.
pub(crate) const GAPS: [u32; 8] = [1, 2, 4, 8, 16, 32, 64, 128];

const RATE_MAX: u32 = 1_000_000;

const LINKS_MAX: usize = 64;

const FLOWS_MAX: usize = 256;

const PAYLOAD_MAX: u16 = 8192;

const CYCLE_MAX: u16 = 10_000;

/// The figures of a port.
#[derive(Clone, Copy)]
pub(crate) struct Port {
    pub(crate) rate: u32,
    pub(crate) share: u32,
    pub(crate) floor: u32,
}

/// A flow that stands, without its figures.
#[derive(Clone, Copy)]
struct Flow {
    name: u16,
    link: u16,
}

/// The number and the detail of a refusal.
#[derive(Clone, Copy, PartialEq, Eq)]
pub(crate) struct Refusal {
    pub(crate) number: u32,
    pub(crate) detail: u32,
}

impl Refusal {
    /// A refusal that tells nothing beside its number.
    pub(crate) fn plain(number: u32) -> Refusal {
        Refusal { number, detail: 0 }
    }
}

/// What the accepted commands of a script have left.
#[derive(Drop)]
pub(crate) struct Standing {
    pub(crate) port: Option<Port>,
    pub(crate) links: Vec<u16>,
    flows: Vec<Flow>,
}

impl Standing {
    /// What stands before the first command: nothing.
    pub(crate) fn new(alloc: Global) -> Standing {
        Standing {
            port: None,
            links: Vec::new(alloc),
            flows: Vec::new(alloc),
        }
    }

    /// Performs a command that was accepted.
    pub(crate) fn enter(&mut self, command: Command) -> Result<(), AllocError> {
        match command {
            Command::Port { rate, share, floor } => {
                let floor = u32::from(floor);
                self.port = Some(Port { rate, share, floor });
            }
            Command::AddLink { name } => self.links.push(name)?,
            Command::AddFlow { link, flow, .. } => self.flows.push(Flow { name: flow, link })?,
            Command::Withdraw { flow } => self.flows.retain(|standing| standing.name != flow),
            Command::Amend { .. } | Command::Solve { .. } => {}
        }
        Ok(())
    }

    /// The refusal that is due of the command: the first of its questions that is answered no. The common cycle of a link
    /// and the search of a solve are left out.
    pub(crate) fn due(&self, command: Command) -> Option<Refusal> {
        let number = match command {
            Command::Port { rate, share, floor } => first_no(&[
                (1, (1..=RATE_MAX).contains(&rate)),
                (2, (1..=rate).contains(&share)),
                (3, GAPS.contains(&u32::from(floor))),
            ]),
            Command::AddLink { name } => first_no(&[
                (4, self.links.len() < LINKS_MAX),
                (5, !self.links.contains(&name)),
            ]),
            Command::AddFlow {
                link,
                flow,
                payload,
                cycle,
            } => first_no(&[
                (6, self.links.contains(&link)),
                (7, !self.has_flow(flow)),
                (8, self.flows.len() < FLOWS_MAX),
                (9, (1..=PAYLOAD_MAX).contains(&payload)),
                (10, (1..=CYCLE_MAX).contains(&cycle)),
            ]),
            Command::Amend {
                flow,
                payload,
                cycle,
            } => first_no(&[
                (12, self.has_flow(flow)),
                (9, (1..=PAYLOAD_MAX).contains(&payload)),
                (10, (1..=CYCLE_MAX).contains(&cycle)),
            ]),
            Command::Withdraw { flow } => first_no(&[(12, self.has_flow(flow))]),
            Command::Solve { measure, .. } => {
                return self.due_of_solve(measure);
            }
        };
        number.map(Refusal::plain)
    }

    /// The refusal that is due of a solve before its search.
    fn due_of_solve(&self, measure: u8) -> Option<Refusal> {
        if measure != 1 && measure != 2 {
            return Some(Refusal::plain(28));
        }
        let idle = self.links.iter().find(|link| !self.has_flow_of(**link))?;
        Some(Refusal {
            number: 13,
            detail: u32::from(*idle),
        })
    }

    fn has_flow(&self, name: u16) -> bool {
        self.flows.iter().any(|flow| flow.name == name)
    }

    fn has_flow_of(&self, link: u16) -> bool {
        self.flows.iter().any(|flow| flow.link == link)
    }
}

/// The number of the first question that is answered no.
fn first_no(questions: &[(u32, bool)]) -> Option<u32> {
    let no = questions.iter().find(|question| !question.1)?;
    Some(no.0)
}
