use std::alloc::{AllocError, Global};

/// A command of a script, with the numbers that its operands spell.
#[derive(Clone, Copy)]
pub(crate) enum Command {
    Port {
        rate: u32,
        share: u32,
        floor: u8,
    },
    AddLink {
        name: u16,
    },
    AddFlow {
        link: u16,
        flow: u16,
        payload: u16,
        cycle: u16,
    },
    Amend {
        flow: u16,
        payload: u16,
        cycle: u16,
    },
    Withdraw {
        flow: u16,
    },
    Solve {
        measure: u8,
        allowance: u32,
    },
}

impl Command {
    /// Adds the bytes of the command.
    pub(crate) fn spell(self, script: &mut Vec<u8>) -> Result<(), AllocError> {
        match self {
            Command::Port { rate, share, floor } => {
                script.push(0x50)?;
                script.extend_from_slice(&rate.to_be_bytes())?;
                script.extend_from_slice(&share.to_be_bytes())?;
                script.push(floor)?;
                Ok(())
            }
            Command::AddLink { name } => spell_shorts(script, 0x4C, &[name]),
            Command::AddFlow {
                link,
                flow,
                payload,
                cycle,
            } => spell_shorts(script, 0x46, &[link, flow, payload, cycle]),
            Command::Amend {
                flow,
                payload,
                cycle,
            } => spell_shorts(script, 0x41, &[flow, payload, cycle]),
            Command::Withdraw { flow } => spell_shorts(script, 0x57, &[flow]),
            Command::Solve { measure, allowance } => {
                script.extend_from_slice(&[0x53, measure])?;
                script.extend_from_slice(&allowance.to_be_bytes())
            }
        }
    }
}

/// Adds a command whose operands have two bytes each.
fn spell_shorts(script: &mut Vec<u8>, byte: u8, operands: &[u16]) -> Result<(), AllocError> {
    script.push(byte)?;
    for operand in operands {
        script.extend_from_slice(&operand.to_be_bytes())?;
    }
    Ok(())
}

/// The bytes of these commands.
pub(crate) fn spelled(alloc: Global, commands: &[Command]) -> Result<Vec<u8>, AllocError> {
    let mut script = Vec::new(alloc);
    for command in commands {
        command.spell(&mut script)?;
    }
    Ok(script)
}
