use crate::desk::BEFORE;
use limits::Pair;
use plan::{Flow, PlanFault};
use planner::Row;
use std::alloc::{AllocError, Global};
use std::fmt;

/// What a call tells, as the files write it: 0 where it is accepted, else the number and the detail of the refusal.
/// Beside it the words of the refusal.
#[derive(Drop)]
pub(crate) struct Told {
    pub(crate) text: String,
    pub(crate) words: String,
}

impl Told {
    /// Nothing yet.
    pub(crate) fn new(alloc: Global) -> Told {
        Told {
            text: String::new(alloc),
            words: String::new(alloc),
        }
    }

    /// The number and the detail of a refusal, and its words.
    pub(crate) fn write_refusal(
        &mut self,
        number: u8,
        detail: u32,
        words: &impl fmt::Display,
    ) -> Result<(), AllocError> {
        write!(self.text, "{number} {detail}")?;
        write!(self.words, "{words}")
    }
}

/// What a call of a plan tells.
pub(crate) fn write_plan_answer(
    told: &mut Told,
    answer: Result<(), PlanFault>,
) -> Result<(), AllocError> {
    match answer {
        Ok(()) => told.text.push_str("0"),
        Err(fault) => told.write_refusal(fault.number(), fault.detail(), &fault),
    }
}

/// A flow as in `1:7:80:10`: its name, its link, its payload and its cycle.
pub(crate) fn write_flow(told: &mut Told, flow: &Flow) -> Result<(), AllocError> {
    write!(
        told.text,
        " {}:{}:{}:{}",
        flow.name, flow.link, flow.payload, flow.cycle
    )
}

/// The places for the pairs at the gaps, each as in `1:17`, or a minus where there is none.
pub(crate) fn write_places(told: &mut Told, places: &[Option<Pair>]) -> Result<(), AllocError> {
    for place in places {
        match place {
            Some(pair) => write!(told.text, " {}:{}", pair.gap, pair.mtu)?,
            None => told.text.push_str(" -")?,
        }
    }
    Ok(())
}

/// The rows of an answer table, each with a dot where nothing was written.
pub(crate) fn write_rows(told: &mut Told, answer: &[Row]) -> Result<(), AllocError> {
    for row in answer {
        if *row == BEFORE {
            told.text.push_str(" .")?;
        } else {
            write!(told.text, " {}:{}:{}", row.link, row.pair.gap, row.pair.mtu)?;
        }
    }
    Ok(())
}

/// Yes or no.
pub(crate) fn write_test(told: &mut Told, test: bool) -> Result<(), AllocError> {
    told.text.push_str(if test { "yes" } else { "no" })
}
