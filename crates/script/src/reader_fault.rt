ghost use Rattle.std.specs.Prelude.{◌≡◌, Some};
ghost use Rattle.script.specs.ReaderFault.{number, detail, text};

use std::fmt;

/// Why a script is refused from a place on. A command is told by the place of its first byte, from 0.
#[derive(Clone, Copy, Debug, PartialEq, Eq)]
pub enum ReaderFault {
    ScriptTooLong,
    UnknownByte { place: u32 },
    OperandsCut { place: u32 },
    PortMisplaced { place: u32 },
}

impl ReaderFault {
    /// The number of the question that was answered no.
    pub fn number(self) -> u8
        ensures { result ≡ number self }
    {
        // a match: a case that carries a value has no number of its own in the language
        match self {
            ReaderFault::ScriptTooLong => 24,
            ReaderFault::UnknownByte { .. } => 25,
            ReaderFault::OperandsCut { .. } => 26,
            ReaderFault::PortMisplaced { .. } => 27,
        }
    }

    /// What the refusal tells beside its number: the place of the command, or 0.
    pub fn detail(self) -> u32
        ensures { result ≡ detail self }
    {
        // a table of its own cases, as in every type of refusals: a trait for all would leave the tables, and is no plainer
        match self {
            ReaderFault::ScriptTooLong => 0,
            ReaderFault::UnknownByte { place }
            | ReaderFault::OperandsCut { place }
            | ReaderFault::PortMisplaced { place } => place,
        }
    }

    /// What the refusal says in words.
    #[tactic(auto, unfolding(crate::specs::ReaderFault::text))]
    fn text(self) -> &'static str
        ensures { result.now ≡ text self }
    {
        match self {
            ReaderFault::ScriptTooLong => "the script is longer than 32768 bytes",
            ReaderFault::UnknownByte { .. } => "no command begins with this byte",
            ReaderFault::OperandsCut { .. } => "the script ends within the operands",
            ReaderFault::PortMisplaced { .. } => {
                "the figures of the port are the first command, and only the first"
            }
        }
    }
}

// By hand: what a derive writes promises no words.
impl fmt::Display for ReaderFault {
    ghost output = { λ fault. Some (text fault) };

    fn fmt<W: fmt::Write>(&self, f: &mut fmt::Formatter<W>) -> fmt::Result {
        f.write_str(self.text())
    }
}
