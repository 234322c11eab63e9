use crate::flows::{Message, Traffic, random_message};
use crate::random::Random;
use crate::second::table::Table;
use plan::Call;

/// The most flows of a link: the product of their cycles has to fit 64 bits.
const MOST_FLOWS: usize = 4;

/// Adds a link, mostly one of a new name.
pub(crate) fn add_link(random: &mut Random) -> Call {
    Call::AddLink {
        name: random_name(random),
    }
}

/// A name of not too many, so that some come twice.
fn random_name(random: &mut Random) -> u16 {
    if random.once_in(20) {
        return random.between(65_533, 65_535);
    }
    random.between(0, 300)
}

/// Adds a flow to the link, unless the link has as many as it may have here.
pub(crate) fn add_flow(random: &mut Random, table: &Table, link: u16, traffic: Traffic) -> Call {
    let flows = table.flows.iter().filter(|flow| flow.link == link).count();
    if flows >= MOST_FLOWS {
        return amend(random, table, traffic);
    }
    let Message { payload, cycle } = random_message(random, traffic);
    Call::AddFlow {
        link,
        flow: random_name(random),
        payload,
        cycle,
    }
}

/// Amends a flow, mostly one that stands.
fn amend(random: &mut Random, table: &Table, traffic: Traffic) -> Call {
    let Message { payload, cycle } = random_message(random, traffic);
    Call::Amend {
        flow: standing_flow(random, table),
        payload,
        cycle,
    }
}

/// The name of a flow that stands, or now and then any name.
fn standing_flow(random: &mut Random, table: &Table) -> u16 {
    if random.once_in(12) {
        return random_name(random);
    }
    random.pick(&table.flows).map_or(0, |flow| flow.name)
}

/// Any edit of a plan that stands.
pub(crate) fn random_edit(random: &mut Random, table: &Table, traffic: Traffic) -> Call {
    match random.below(12) {
        0 => Call::Withdraw {
            flow: standing_flow(random, table),
        },
        1..=4 => {
            let link = random.pick(&table.links);
            add_flow(random, table, link.unwrap_or(0), traffic)
        }
        5 => add_again(random, table),
        6 => {
            let link = random_name(random);
            add_flow(random, table, link, traffic)
        }
        _ => amend(random, table, traffic),
    }
}

/// Adds a link that stands.
fn add_again(random: &mut Random, table: &Table) -> Call {
    Call::AddLink {
        name: random.pick(&table.links).unwrap_or(0),
    }
}
