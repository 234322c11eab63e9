ghost use Rattle.std.specs.Prelude.{◌≡◌, Some};
ghost use Rattle.script.specs.RunFault.{number, detail, text};
ghost use Rattle.script.specs.declared.run_fault.Cause.TheVariants as causes;

use crate::reader_fault::ReaderFault;
use limits::PortFault;
use plan::PlanFault;
use planner::SolveFault;
use std::fmt;

/// Why a run refuses a command: the refusal of the reader, of the port, of the plan or of the solve as it is, or that no measure
/// has this byte.
#[derive(Clone, Copy, Debug, PartialEq, Eq)]
pub enum Cause {
    Reader(ReaderFault),
    Port(PortFault),
    Plan(PlanFault),
    Solve(SolveFault),
    UnknownMeasure,
}

/// A refusal of a run: its cause, and the number of the command, from 1. A script that is too long counts as command 0.
#[derive(Clone, Copy, Debug, PartialEq, Eq)]
pub struct RunFault {
    pub command: u32,
    pub cause: Cause,
}

impl Cause {
    /// The number of the question that was answered no.
    pub fn number(self) -> u8
        ensures { result ≡ number self }
    {
        match self {
            Cause::Reader(fault) => fault.number(),
            Cause::Port(fault) => fault.number(),
            Cause::Plan(fault) => fault.number(),
            Cause::Solve(fault) => fault.number(),
            Cause::UnknownMeasure => 28,
        }
    }

    /// What the refusal tells beside its number.
    pub fn detail(self) -> u32
        ensures { result ≡ detail self }
    {
        match self {
            Cause::Reader(fault) => fault.detail(),
            Cause::Port(fault) => fault.detail(),
            Cause::Plan(fault) => fault.detail(),
            Cause::Solve(fault) => fault.detail(),
            Cause::UnknownMeasure => 0,
        }
    }
}

// By hand: what a derive writes promises no words.
impl fmt::Display for Cause {
    ghost output = { λ cause. Some (text cause) };

    fn fmt<W: fmt::Write>(&self, f: &mut fmt::Formatter<W>) -> fmt::Result {
        match self {
            Cause::Reader(fault) => write!(f, "{fault}"),
            Cause::Port(fault) => write!(f, "{fault}"),
            Cause::Plan(fault) => write!(f, "{fault}"),
            Cause::Solve(fault) => write!(f, "{fault}"),
            Cause::UnknownMeasure => f.write_str("no measure has this byte"),
        }
    }
}

impl From<ReaderFault> for Cause {
    ghost from_gives = { λ fault cause. cause ≡ causes.Reader fault };

    fn from(fault: ReaderFault) -> Cause {
        Cause::Reader(fault)
    }
}

impl From<PortFault> for Cause {
    ghost from_gives = { λ fault cause. cause ≡ causes.Port fault };

    fn from(fault: PortFault) -> Cause {
        Cause::Port(fault)
    }
}

impl From<PlanFault> for Cause {
    ghost from_gives = { λ fault cause. cause ≡ causes.Plan fault };

    fn from(fault: PlanFault) -> Cause {
        Cause::Plan(fault)
    }
}

impl From<SolveFault> for Cause {
    ghost from_gives = { λ fault cause. cause ≡ causes.Solve fault };

    fn from(fault: SolveFault) -> Cause {
        Cause::Solve(fault)
    }
}
