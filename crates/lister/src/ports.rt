use crate::both::Both;
use crate::edits::{add_flow, add_link, random_edit};
use crate::flows::Traffic;
use crate::random::Random;
use crate::report::Report;
use crate::standing::hold_standing;
use crate::subject::Subject;
use std::alloc::Global;
use std::io;

/// The most links of a port.
const MOST_LINKS: usize = 6;

/// How many links ports have before they are edited: seldom none, and seldom as many as they may have.
const LINKS: [usize; 19] = [0, 1, 1, 2, 2, 2, 2, 3, 3, 3, 3, 3, 4, 4, 4, 4, 5, 5, 6];

/// A random port, with the numbers that its next calls are made of.
#[derive(Drop)]
struct RandomPort {
    subject: Subject,
    random: Random,
    traffic: Traffic,
    both: Both,
}

/// Holds the planner against the second one on the random port of that number: it is built up, and then solved and edited in
/// turn.
pub(crate) fn hold_port(
    report: &mut Report<'_, impl Print>,
    alloc: Global,
    number: u64,
) -> io::Result<()> {
    let mut random = Random::new(number);
    let links = random.pick(&LINKS).unwrap_or(0);
    let traffic = random_traffic(&mut random, links);
    let mut port = RandomPort {
        subject: Subject::Port(number),
        random,
        traffic,
        both: Both::new(alloc),
    };
    for _ in 0..links {
        port.add_link(report)?;
    }
    port.hold(report, alloc)?;
    for _ in 0..port.random.between(1, 2) {
        port.edit(report)?;
        port.hold(report, alloc)?;
    }
    Ok(())
}

/// What the flows of a port are like: where there are many links, mostly with few candidates, so that the list stays short.
fn random_traffic(random: &mut Random, links: usize) -> Traffic {
    if links > 4 && !random.once_in(12) {
        let short = [Traffic::Busy, Traffic::Busy, Traffic::EqualTotals];
        return random.pick(&short).unwrap_or(Traffic::Busy);
    }
    let traffic = [
        Traffic::Busy,
        Traffic::Regular,
        Traffic::Mixed,
        Traffic::EqualTotals,
    ];
    random.pick(&traffic).unwrap_or(Traffic::Busy)
}

impl RandomPort {
    /// Adds a link and mostly one to three flows to it.
    fn add_link(&mut self, report: &mut Report<'_, impl Print>) -> io::Result<()> {
        let call = add_link(&mut self.random);
        self.both.perform(report, self.subject, call)?;
        let Some(link) = self.both.table.links.last().copied() else {
            return Ok(());
        };
        for _ in 0..self.random_flows() {
            let call = add_flow(&mut self.random, &self.both.table, link, self.traffic);
            self.both.perform(report, self.subject, call)?;
        }
        Ok(())
    }

    /// How many flows are added with a link.
    fn random_flows(&mut self) -> u16 {
        if self.random.once_in(30) {
            return 0;
        }
        if self.traffic == Traffic::EqualTotals {
            return 1;
        }
        self.random.between(1, 3)
    }

    /// Makes one to four edits.
    fn edit(&mut self, report: &mut Report<'_, impl Print>) -> io::Result<()> {
        for _ in 0..self.random.between(1, 4) {
            if self.random.once_in(12) && self.both.table.links.len() < MOST_LINKS {
                self.add_link(report)?;
            } else {
                let call = random_edit(&mut self.random, &self.both.table, self.traffic);
                self.both.perform(report, self.subject, call)?;
            }
        }
        Ok(())
    }

    /// Solves what stands.
    fn hold(&mut self, report: &mut Report<'_, impl Print>, alloc: Global) -> io::Result<()> {
        hold_standing(report, alloc, &self.both, &mut self.random, self.subject)
    }
}
