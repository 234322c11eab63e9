/// The kinds of scripts that are tried.
pub(crate) const KINDS: [Kind; 14] = [
    Kind::AnyBytes,
    Kind::AnyCommands,
    Kind::Crowd,
    Kind::Sensible,
    Kind::BytesChanged,
    Kind::BitsTurned,
    Kind::PieceCutOut,
    Kind::CutShort,
    Kind::PieceTwice,
    Kind::ByteMore,
    Kind::CommandsSwapped,
    Kind::CommandTwice,
    Kind::SecondPort,
    Kind::Long,
];

/// What a script is made by.
#[derive(Clone, Copy)]
pub(crate) enum Kind {
    AnyBytes,
    AnyCommands,
    Crowd,
    Sensible,
    BytesChanged,
    BitsTurned,
    PieceCutOut,
    CutShort,
    PieceTwice,
    ByteMore,
    CommandsSwapped,
    CommandTwice,
    SecondPort,
    Long,
}

impl Kind {
    /// What its scripts are.
    pub(crate) fn name(self) -> &'static str {
        match self {
            Kind::AnyBytes => "any bytes",
            Kind::AnyCommands => "any commands",
            Kind::Crowd => "too many links and flows",
            Kind::Sensible => "sensible",
            Kind::BytesChanged => "bytes changed",
            Kind::BitsTurned => "bits turned",
            Kind::PieceCutOut => "a piece cut out",
            Kind::CutShort => "cut short at every length",
            Kind::PieceTwice => "a piece twice",
            Kind::ByteMore => "a byte put in",
            Kind::CommandsSwapped => "two commands swapped",
            Kind::CommandTwice => "a command twice",
            Kind::SecondPort => "a second port",
            Kind::Long => "about as long as may be, and longer",
        }
    }

    /// How many scripts of the kind are tried.
    pub(crate) fn scripts(self) -> u32 {
        match self {
            Kind::AnyCommands | Kind::CutShort => 1_000,
            Kind::AnyBytes | Kind::Sensible | Kind::BytesChanged | Kind::BitsTurned => 600,
            Kind::PieceCutOut | Kind::PieceTwice | Kind::ByteMore | Kind::CommandsSwapped => 400,
            Kind::CommandTwice | Kind::SecondPort => 300,
            Kind::Crowd => 40,
            Kind::Long => 36,
        }
    }
}
