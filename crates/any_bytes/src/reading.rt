//! A reader of scripts of its own.
use crate::command::Command;

/// What stands next in a script.
#[derive(Clone, Copy)]
pub(crate) enum Next {
    End,
    UnknownByte,
    OperandsCut,
    Command { command: Command, width: u32 },
}

/// What stands at the beginning of these bytes.
pub(crate) fn next_of(bytes: &[u8]) -> Next {
    let Some((byte, operands)) = bytes.split_first() else {
        return Next::End;
    };
    let read = match byte {
        0x50 => port(operands),
        0x4C => add_link(operands),
        0x46 => add_flow(operands),
        0x41 => amend(operands),
        0x57 => withdraw(operands),
        0x53 => solve(operands),
        _ => return Next::UnknownByte,
    };
    let Some(command) = read else {
        return Next::OperandsCut;
    };
    Next::Command {
        command,
        width: width_of(command),
    }
}

/// How many bytes a command has, with its own.
fn width_of(command: Command) -> u32 {
    match command {
        Command::Port { .. } => 10,
        Command::AddLink { .. } | Command::Withdraw { .. } => 3,
        Command::AddFlow { .. } => 9,
        Command::Amend { .. } => 7,
        Command::Solve { .. } => 6,
    }
}

fn port(operands: &[u8]) -> Option<Command> {
    let [r0, r1, r2, r3, s0, s1, s2, s3, floor, ..] = operands else {
        return None;
    };
    Some(Command::Port {
        rate: u32::from_be_bytes([*r0, *r1, *r2, *r3]),
        share: u32::from_be_bytes([*s0, *s1, *s2, *s3]),
        floor: *floor,
    })
}

fn add_link(operands: &[u8]) -> Option<Command> {
    let [high, low, ..] = operands else {
        return None;
    };
    Some(Command::AddLink {
        name: u16::from_be_bytes([*high, *low]),
    })
}

fn add_flow(operands: &[u8]) -> Option<Command> {
    let [l0, l1, f0, f1, p0, p1, c0, c1, ..] = operands else {
        return None;
    };
    Some(Command::AddFlow {
        link: u16::from_be_bytes([*l0, *l1]),
        flow: u16::from_be_bytes([*f0, *f1]),
        payload: u16::from_be_bytes([*p0, *p1]),
        cycle: u16::from_be_bytes([*c0, *c1]),
    })
}

fn amend(operands: &[u8]) -> Option<Command> {
    let [f0, f1, p0, p1, c0, c1, ..] = operands else {
        return None;
    };
    Some(Command::Amend {
        flow: u16::from_be_bytes([*f0, *f1]),
        payload: u16::from_be_bytes([*p0, *p1]),
        cycle: u16::from_be_bytes([*c0, *c1]),
    })
}

fn withdraw(operands: &[u8]) -> Option<Command> {
    let [high, low, ..] = operands else {
        return None;
    };
    Some(Command::Withdraw {
        flow: u16::from_be_bytes([*high, *low]),
    })
}

fn solve(operands: &[u8]) -> Option<Command> {
    let [measure, a0, a1, a2, a3, ..] = operands else {
        return None;
    };
    Some(Command::Solve {
        measure: *measure,
        allowance: u32::from_be_bytes([*a0, *a1, *a2, *a3]),
    })
}
