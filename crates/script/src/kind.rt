ghost use Rattle.std.specs.Prelude.{◌≡◌, length};
ghost use Rattle.std.specs.Int.{w16, w32, from_be_bytes};
ghost use Rattle.script.specs.Command.{kind_of, operand_bytes, command};

use crate::command::Command;
use plan::Call;

/// What a command does. Each kind is told by its first byte.
#[derive(Clone, Copy, Debug, PartialEq, Eq)]
pub(crate) enum Kind {
    Port,
    AddLink,
    AddFlow,
    Amend,
    Withdraw,
    Solve,
}

impl Kind {
    /// The kind that the byte tells, if there is one.
    pub(crate) fn of(byte: u8) -> Option<Kind>
        ensures { result ≡ kind_of byte }
    {
        match byte {
            0x50 => Some(Kind::Port),
            0x4C => Some(Kind::AddLink),
            0x46 => Some(Kind::AddFlow),
            0x41 => Some(Kind::Amend),
            0x57 => Some(Kind::Withdraw),
            0x53 => Some(Kind::Solve),
            _ => None,
        }
    }

    /// How many bytes of operands follow the first byte.
    pub(crate) fn operand_bytes(self) -> usize
        ensures { result ≡ operand_bytes self }
    {
        match self {
            Kind::Port => 9,
            Kind::AddLink => 2,
            Kind::AddFlow => 8,
            Kind::Amend => 6,
            Kind::Withdraw => 2,
            Kind::Solve => 5,
        }
    }

    /// The command of this kind with these operands.
    pub(crate) fn command(self, operands: &[u8]) -> Command
        requires { length operands.now ≡ operand_bytes self }
        ensures { result ≡ command self operands.now }
    {
        match self {
            Kind::Port => Command::Port {
                rate: long(&operands[0..4]),
                share: long(&operands[4..8]),
                floor: operands[8],
            },
            Kind::AddLink => Command::Edit(Call::AddLink {
                name: short(&operands[0..2]),
            }),
            Kind::AddFlow => Command::Edit(Call::AddFlow {
                link: short(&operands[0..2]),
                flow: short(&operands[2..4]),
                payload: short(&operands[4..6]),
                cycle: short(&operands[6..8]),
            }),
            Kind::Amend => Command::Edit(Call::Amend {
                flow: short(&operands[0..2]),
                payload: short(&operands[2..4]),
                cycle: short(&operands[4..6]),
            }),
            Kind::Withdraw => Command::Edit(Call::Withdraw {
                flow: short(&operands[0..2]),
            }),
            Kind::Solve => Command::Solve {
                measure: operands[0],
                allowance: long(&operands[1..5]),
            },
        }
    }
}

/// The number of two bytes, the high one first.
fn short(bytes: &[u8]) -> u16
    requires { length bytes.now ≡ 2 }
    ensures { result ≡ from_be_bytes w16 bytes.now }
{
    u16::from_be_bytes([bytes[0], bytes[1]])
}

/// The number of four bytes, the high one first.
fn long(bytes: &[u8]) -> u32
    requires { length bytes.now ≡ 4 }
    ensures { result ≡ from_be_bytes w32 bytes.now }
{
    u32::from_be_bytes([bytes[0], bytes[1], bytes[2], bytes[3]])
}
