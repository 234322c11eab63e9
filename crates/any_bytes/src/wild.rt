//! Scripts that nobody would write.
use crate::command::{Command, spelled};
use crate::random::Random;
use crate::sensible;
use std::alloc::{AllocError, Global};

/// Any bytes, half the time behind the figures of a port.
pub(crate) fn any_bytes(alloc: Global, random: &mut Random) -> Result<Vec<u8>, AllocError> {
    let mut script = Vec::new(alloc);
    if random.once_in(2) {
        sensible::port(random).spell(&mut script)?;
    }
    for _ in 0..random.below(400) {
        script.push(random.byte())?;
    }
    Ok(script)
}

/// Any commands behind the figures of a port, most of which are accepted.
pub(crate) fn any_commands(alloc: Global, random: &mut Random) -> Result<Vec<u8>, AllocError> {
    let mut commands = Vec::new(alloc);
    let port = if random.once_in(4) {
        any_port(random)
    } else {
        sensible::port(random)
    };
    commands.push(port)?;
    for _ in 0..random.below(80) {
        commands.push(any_command(random))?;
    }
    spelled(alloc, &commands)
}

/// More links and flows than a plan takes, solves, and any commands.
pub(crate) fn crowd(alloc: Global, random: &mut Random) -> Result<Vec<u8>, AllocError> {
    let mut commands = Vec::new(alloc);
    commands.push(sensible::port(random))?;
    let links = random.short_below(10).wrapping_add(60);
    for name in 0..links {
        commands.push(Command::AddLink { name })?;
    }
    for flow in 0..random.short_below(60).wrapping_add(250) {
        commands.push(Command::AddFlow {
            link: flow.checked_rem(links).unwrap_or(0),
            flow,
            payload: random.short_below(100),
            cycle: random.pick(&[128, 256]),
        })?;
    }
    for _ in 0..20 {
        commands.push(any_solve(random))?;
        commands.push(any_command(random))?;
    }
    spelled(alloc, &commands)
}

/// A script of just so many bytes, about as many as one may have or more.
pub(crate) fn long(
    alloc: Global,
    random: &mut Random,
    length: usize,
) -> Result<Vec<u8>, AllocError> {
    let mut script = Vec::new(alloc);
    sensible::port(random).spell(&mut script)?;
    let fill = random.below(3);
    for _ in 0..length {
        if script.len() >= length {
            break;
        }
        match fill {
            0 => script.push(random.byte())?,
            1 => Command::AddLink { name: 7 }.spell(&mut script)?,
            _ => any_work(random).spell(&mut script)?,
        }
    }
    script.truncate(length);
    Ok(script)
}

/// Any command, but the figures of a port only once in a while.
fn any_command(random: &mut Random) -> Command {
    if random.once_in(100) {
        return any_port(random);
    }
    any_work(random)
}

/// Any edit, or any solve once in a while.
fn any_work(random: &mut Random) -> Command {
    if random.once_in(6) {
        return any_solve(random);
    }
    any_edit(random)
}

/// Any figures of a port.
fn any_port(random: &mut Random) -> Command {
    Command::Port {
        rate: any_rate(random),
        share: any_rate(random),
        floor: random.pick(&[0, 1, 1, 2, 3, 4, 8, 32, 64, 128, 255]),
    }
}

fn any_rate(random: &mut Random) -> u32 {
    match random.below(4) {
        0 => random.long(),
        1 => u32::from(random.short()),
        _ => random.pick(&[0, 1, 10_000, 10_001, 1_000_000, 1_000_001]),
    }
}

fn any_edit(random: &mut Random) -> Command {
    match random.below(8) {
        0 | 1 => Command::AddLink {
            name: any_name(random, 4),
        },
        2..=4 => Command::AddFlow {
            link: any_name(random, 4),
            flow: any_name(random, 16),
            payload: any_payload(random),
            cycle: any_cycle(random),
        },
        5 | 6 => Command::Amend {
            flow: any_name(random, 16),
            payload: any_payload(random),
            cycle: any_cycle(random),
        },
        _ => Command::Withdraw {
            flow: any_name(random, 16),
        },
    }
}

fn any_solve(random: &mut Random) -> Command {
    Command::Solve {
        measure: random.pick(&[1, 1, 1, 2, 2, 2, 0, 3]),
        allowance: random.pick(&[0, 1, 8, 100, 1_000, 20_000]),
    }
}

/// A name, most likely one of so many.
fn any_name(random: &mut Random, names: u16) -> u16 {
    if random.once_in(60) {
        return random.short();
    }
    random.short_below(names)
}

fn any_payload(random: &mut Random) -> u16 {
    match random.below(8) {
        0 => random.pick(&[0, 1, 8_192, 8_192, 8_193]),
        1 => random.short(),
        _ => random.short_below(1_500),
    }
}

fn any_cycle(random: &mut Random) -> u16 {
    match random.below(8) {
        0 | 1 => random.pick(&[0, 999, 1_000, 1_001, 10_000, 10_001]),
        2 => random.short(),
        _ => random.pick(&[1, 5, 10, 40, 80, 128, 160]),
    }
}
