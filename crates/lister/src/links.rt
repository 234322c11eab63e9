use crate::both::Both;
use crate::random::Random;
use crate::report::Report;
use crate::second::candidates::{EIGHT_GAPS, candidates};
use crate::subject::Subject;
use limits::{GAP_COUNT, Pair};
use plan::Call;
use std::alloc::Global;
use std::io;

/// The largest payload and the longest cycle of the flows of a link.
const RANGES: [(u16, u16); 3] = [(1500, 400), (8192, 40), (8192, 10_000)];

/// Holds the candidates of random links against those that are found by trying every MTU at each gap.
pub(crate) fn hold_links(
    report: &mut Report<'_, impl Print>,
    alloc: Global,
    links: u64,
) -> io::Result<()> {
    for number in 1..=links {
        hold_link(report, alloc, number)?;
    }
    Ok(())
}

/// Holds the candidates of one random link.
fn hold_link(report: &mut Report<'_, impl Print>, alloc: Global, number: u64) -> io::Result<()> {
    let mut random = Random::new(number);
    let mut both = Both::new(alloc);
    let link = random.between(0, 65_535);
    let subject = Subject::Link(number);
    both.perform(report, subject, Call::AddLink { name: link })?;
    let (payload, cycle) = random.pick(&RANGES).unwrap_or((1500, 400));
    for flow in 0..random.between(1, 3) {
        let call = Call::AddFlow {
            link,
            flow,
            payload: random.between(1, payload),
            cycle: random.between(1, cycle),
        };
        both.perform(report, subject, call)?;
    }
    let found = candidates(alloc, &both.table.flows)?;
    report.tally.note_link(found.len());
    hold_pairs(report, &both, subject, link, &found)
}

/// Holds the pairs of the link against those that were found.
pub(crate) fn hold_pairs(
    report: &mut Report<'_, impl Print>,
    both: &Both,
    subject: Subject,
    link: u16,
    found: &[Pair],
) -> io::Result<()> {
    let places = places_of(found);
    let mut written = [None; GAP_COUNT];
    let told = both.plan.pairs(link, &mut written);
    let candidates = both.plan.candidates(link);
    if told.is_ok() && written == places && candidates == places {
        return Ok(());
    }
    report.note_difference(
        subject,
        format_args!(
            "the planner tells {told:?}, {written:?} and {candidates:?}, and {found:?} serve"
        ),
    )
}

/// The pairs, each at the place of its gap.
pub(crate) fn places_of(pairs: &[Pair]) -> [Option<Pair>; GAP_COUNT] {
    let mut places = [None; GAP_COUNT];
    for (place, gap) in places.iter_mut().zip(EIGHT_GAPS) {
        *place = pairs.iter().copied().find(|pair| pair.gap == gap);
    }
    places
}
