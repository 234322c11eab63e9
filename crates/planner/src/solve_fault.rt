ghost use Rattle.std.specs.Prelude.{◌≡◌, Some};
ghost use Rattle.planner.specs.SolveFault.{number, unmeetable, detail, text};

use std::fmt;

/// Why a solve is refused. A link is told by its name.
#[derive(Clone, Copy, Debug, PartialEq, Eq)]
pub enum SolveFault {
    LinkWithoutFlow { link: u16 },
    AnswerTableTooShort,
    WorkTableTooShort,
    LinkWithoutCandidate { link: u16 },
    Spent,
    NothingWithin,
}

impl SolveFault {
    /// The number of the question that was answered no.
    pub fn number(self) -> u8
        ensures { result ≡ number self }
    {
        // a match: a case that carries a value has no number of its own in the language
        match self {
            SolveFault::LinkWithoutFlow { .. } => 13,
            SolveFault::AnswerTableTooShort => 14,
            SolveFault::WorkTableTooShort => 15,
            SolveFault::LinkWithoutCandidate { .. } => 16,
            SolveFault::Spent => 17,
            SolveFault::NothingWithin => 18,
        }
    }

    /// Does the refusal call the port unmeetable?
    pub fn is_unmeetable(self) -> bool
        ensures { result ≡ unmeetable (number self) }
    {
        matches!(
            self,
            SolveFault::LinkWithoutCandidate { .. } | SolveFault::NothingWithin
        )
    }

    /// What the refusal tells beside its number: the name of the link, or 0.
    pub fn detail(self) -> u32
        ensures { result ≡ detail self }
    {
        // a table of its own cases, as in every type of refusals: a trait for all would leave the tables, and is no plainer
        match self {
            SolveFault::LinkWithoutFlow { link } | SolveFault::LinkWithoutCandidate { link } => {
                u32::from(link)
            }
            SolveFault::AnswerTableTooShort
            | SolveFault::WorkTableTooShort
            | SolveFault::Spent
            | SolveFault::NothingWithin => 0,
        }
    }

    /// What the refusal says in words.
    #[tactic(auto, unfolding(crate::specs::SolveFault::text))]
    fn text(self) -> &'static str
        ensures { result.now ≡ text self }
    {
        match self {
            SolveFault::LinkWithoutFlow { .. } => "a link has no flow",
            SolveFault::AnswerTableTooShort =>
                "the answer table has fewer rows than there are links",
            SolveFault::WorkTableTooShort => "the work table has no more rows than there are links",
            SolveFault::LinkWithoutCandidate { .. } => "no pair serves the flows of a link",
            SolveFault::Spent => "the visits are more than the allowance",
            SolveFault::NothingWithin => "no setting that serves the links is within the limit",
        }
    }
}

// By hand: what a derive writes promises no words.
impl fmt::Display for SolveFault {
    ghost output = { λ fault. Some (text fault) };

    fn fmt<W: fmt::Write>(&self, f: &mut fmt::Formatter<W>) -> fmt::Result {
        f.write_str(self.text())
    }
}
