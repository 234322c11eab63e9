ghost use Rattle.std.specs.Prelude.{◌≡◌};
ghost use Rattle.script.specs.Command.{is_port};

use plan::Call;

/// A command of a script, with its operands.
#[derive(Clone, Copy, Debug, PartialEq, Eq)]
pub enum Command {
    /// The figures of the port: its rate and the share of it that links may reserve, in kbit/s, and the least gap in ms.
    Port { rate: u32, share: u32, floor: u8 },
    /// A call that edits the plan.
    Edit(Call),
    /// A solve under the port's limit: the byte that tells the measure, and the visits that are allowed.
    Solve { measure: u8, allowance: u32 },
}

impl Command {
    /// Is the command the figures of the port?
    pub(crate) fn is_port(self) -> bool
        ensures { result ≡ is_port self }
    {
        matches!(self, Command::Port { .. })
    }
}

/// A command with the place of its first byte in the script, from 0.
#[derive(Clone, Copy, Debug, PartialEq, Eq)]
pub struct PlacedCommand {
    pub place: u32,
    pub command: Command,
}
