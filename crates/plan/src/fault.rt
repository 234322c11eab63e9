ghost use Rattle.std.specs.Prelude.{◌≡◌, Some};
ghost use Rattle.plan.specs.Fault.{number, detail, text};

use std::fmt;

/// Why a plan refuses a call.
#[derive(Clone, Copy, Debug, PartialEq, Eq)]
pub enum PlanFault {
    TooManyLinks = 4,
    LinkTaken = 5,
    UnknownLink = 6,
    FlowTaken = 7,
    TooManyFlows = 8,
    PayloadOutOfRange = 9,
    CycleOutOfRange = 10,
    CommonCycleTooLong = 11,
    UnknownFlow = 12,
    LinkWithoutFlow = 13,
}

impl PlanFault {
    /// The number of the question that was answered no.
    pub fn number(self) -> u8
        ensures { result ≡ number self }
    {
        self as u8
    }

    /// What the refusal tells beside its number: nothing, so 0.
    pub fn detail(self) -> u32
        ensures { result ≡ detail self }
    {
        // a table of its own cases, as in every type of refusals: a trait for all would leave the tables, and is no plainer
        match self {
            PlanFault::TooManyLinks
            | PlanFault::LinkTaken
            | PlanFault::UnknownLink
            | PlanFault::FlowTaken
            | PlanFault::TooManyFlows
            | PlanFault::PayloadOutOfRange
            | PlanFault::CycleOutOfRange
            | PlanFault::CommonCycleTooLong
            | PlanFault::UnknownFlow
            | PlanFault::LinkWithoutFlow => 0,
        }
    }

    /// What the refusal says in words.
    #[tactic(auto, unfolding(crate::specs::Fault::text))]
    fn text(self) -> &'static str
        ensures { result.now ≡ text self }
    {
        match self {
            PlanFault::TooManyLinks => "64 links stand already",
            PlanFault::LinkTaken => "a link of that name stands already",
            PlanFault::UnknownLink => "no link of that name stands",
            PlanFault::FlowTaken => "a flow of that name stands already",
            PlanFault::TooManyFlows => "256 flows stand already",
            PlanFault::PayloadOutOfRange => "the payload is not from 1 to 8192 bytes",
            PlanFault::CycleOutOfRange => "the cycle is not from 1 to 10000 ms",
            PlanFault::CommonCycleTooLong => "the common cycle of the link would exceed 1000000 ms",
            PlanFault::UnknownFlow => "no flow of that name stands",
            PlanFault::LinkWithoutFlow => "the link has no flow",
        }
    }
}

// By hand: what a derive writes promises no words.
impl fmt::Display for PlanFault {
    ghost output = { λ fault. Some (text fault) };

    fn fmt<W: fmt::Write>(&self, f: &mut fmt::Formatter<W>) -> fmt::Result {
        f.write_str(self.text())
    }
}
