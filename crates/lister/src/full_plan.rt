use crate::both::Both;
use crate::flows::{Message, Traffic, random_message};
use crate::random::Random;
use crate::report::Report;
use crate::subject::Subject;
use plan::Call;
use std::alloc::Global;
use std::io;

/// Fills a plan with links and flows to beyond what it holds, and then makes so many random edits of it.
pub(crate) fn hold_full_plan(
    report: &mut Report<'_, impl Print>,
    alloc: Global,
    edits: u16,
) -> io::Result<()> {
    let mut random = Random::new(0);
    let mut both = Both::new(alloc);
    for name in 0..66 {
        both.perform(report, Subject::FullPlan, Call::AddLink { name })?;
    }
    for flow in 0..260 {
        let call = Call::AddFlow {
            link: flow % 64,
            flow,
            payload: 100,
            cycle: 100,
        };
        both.perform(report, Subject::FullPlan, call)?;
    }
    for _ in 0..edits {
        let call = random_call(&mut random);
        both.perform(report, Subject::FullPlan, call)?;
    }
    Ok(())
}

/// Any call, with names of which most are taken.
fn random_call(random: &mut Random) -> Call {
    let flow = random.between(0, 280);
    let link = random.between(0, 66);
    let Message { payload, cycle } = random_message(random, Traffic::Regular);
    match random.below(5) {
        0 => Call::AddLink { name: link },
        1 | 2 => Call::AddFlow {
            link,
            flow,
            payload,
            cycle,
        },
        3 => Call::Amend {
            flow,
            payload,
            cycle,
        },
        _ => Call::Withdraw { flow },
    }
}
