//! Scripts that somebody might write, of few links, so that their solves are quick.
use crate::command::Command;
use crate::random::Random;
use std::alloc::{AllocError, Global};

/// A script: a port, some links with their flows, a solve, and edits with a solve after each.
pub(crate) fn sensible(alloc: Global, random: &mut Random) -> Result<Vec<Command>, AllocError> {
    let mut commands = Vec::new(alloc);
    commands.push(port(random))?;
    let first_link = random.pick(&[0, 1, 7, 256, 65_000]);
    let links = random.short_below(4).max(1);
    let mut flows = 0_u16;
    for link in 0..links {
        let name = link.wrapping_add(first_link);
        commands.push(Command::AddLink { name })?;
        for _ in 0..=random.below(3) {
            flows = flows.wrapping_add(1);
            commands.push(add_flow(random, name, flows))?;
        }
    }
    commands.push(solve(random))?;
    for _ in 0..random.below(4) {
        commands.push(edit(random, flows))?;
        commands.push(solve(random))?;
    }
    Ok(commands)
}

/// The figures of a port, which are accepted.
pub(crate) fn port(random: &mut Random) -> Command {
    let rate: u32 = random.pick(&[1_000, 5_000, 10_000, 100_000, 1_000_000]);
    let part: u32 = random.pick(&[1, 1, 2, 10]);
    Command::Port {
        rate,
        share: rate.checked_div(part).unwrap_or(rate),
        floor: random.pick(&[1, 1, 1, 2, 4, 8, 16]),
    }
}

/// A flow of the link.
fn add_flow(random: &mut Random, link: u16, flow: u16) -> Command {
    Command::AddFlow {
        link,
        flow,
        payload: payload(random),
        cycle: cycle(random),
    }
}

/// An edit of a flow that most likely stands.
fn edit(random: &mut Random, flows: u16) -> Command {
    let flow = random.short_below(flows).wrapping_add(1);
    if random.once_in(3) {
        return Command::Withdraw { flow };
    }
    Command::Amend {
        flow,
        payload: payload(random),
        cycle: cycle(random),
    }
}

fn solve(random: &mut Random) -> Command {
    Command::Solve {
        measure: random.pick(&[1, 2]),
        allowance: random.pick(&[0, 6, 42, 1_000, 5_000, 100_000]),
    }
}

fn payload(random: &mut Random) -> u16 {
    random.short_below(600).max(1)
}

fn cycle(random: &mut Random) -> u16 {
    random.pick(&[5, 10, 20, 40, 60, 80, 100, 128, 160, 220])
}
