ghost use Rattle.std.specs.Prelude.{◌≡◌, Some};
ghost use Rattle.limits.specs.PortFault.{number, detail, text};

use std::fmt;

/// Why figures make no port.
#[derive(Clone, Copy, Debug, PartialEq, Eq)]
pub enum PortFault {
    RateOutOfRange = 1,
    ShareOutOfRange = 2,
    FloorNotAGap = 3,
}

impl PortFault {
    /// The number of the question that was answered no.
    pub fn number(self) -> u8
        ensures { result ≡ number self }
    {
        self as u8
    }

    /// What the refusal tells beside its number: nothing, so 0.
    pub fn detail(self) -> u32
        ensures { result ≡ detail self }
    {
        // a table of its own cases, as in every type of refusals: a trait for all would leave the tables, and is no plainer
        match self {
            PortFault::RateOutOfRange | PortFault::ShareOutOfRange | PortFault::FloorNotAGap => 0,
        }
    }

    /// What the refusal says in words.
    #[tactic(auto, unfolding(crate::specs::PortFault::text))]
    fn text(self) -> &'static str
        ensures { result.now ≡ text self }
    {
        match self {
            PortFault::RateOutOfRange => "the rate is not from 1 to 1000000 kbit/s",
            PortFault::ShareOutOfRange => "the share is not from 1 kbit/s to the rate",
            PortFault::FloorNotAGap => "the floor is not one of the gaps",
        }
    }
}

// By hand: what a derive writes promises no words.
impl fmt::Display for PortFault {
    ghost output = { λ fault. Some (text fault) };

    fn fmt<W: fmt::Write>(&self, f: &mut fmt::Formatter<W>) -> fmt::Result {
        f.write_str(self.text())
    }
}
