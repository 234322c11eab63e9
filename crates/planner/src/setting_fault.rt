ghost use Rattle.std.specs.Prelude.{◌≡◌, Some};
ghost use Rattle.planner.specs.SettingFault.{number, detail, text};

use std::fmt;

/// Why a setting is refused. A row is told by its place, from 1.
#[derive(Clone, Copy, Debug, PartialEq, Eq)]
pub enum SettingFault {
    LinkWithoutFlow { link: u16 },
    RowsNotTheLinks,
    GapUnlawful { row: u32 },
    MtuUnlawful { row: u32 },
    MessagesUnserved { row: u32 },
    NotWithin { breach: u32 },
}

impl SettingFault {
    /// The number of the question that was answered no.
    pub fn number(self) -> u8
        ensures { result ≡ number self }
    {
        // a match: a case that carries a value has no number of its own in the language
        match self {
            SettingFault::LinkWithoutFlow { .. } => 13,
            SettingFault::RowsNotTheLinks => 19,
            SettingFault::GapUnlawful { .. } => 20,
            SettingFault::MtuUnlawful { .. } => 21,
            SettingFault::MessagesUnserved { .. } => 22,
            SettingFault::NotWithin { .. } => 23,
        }
    }

    /// What the refusal tells beside its number: the name of the link, the place of the row, or the breach.
    pub fn detail(self) -> u32
        ensures { result ≡ detail self }
    {
        // a table of its own cases, as in every type of refusals: a trait for all would leave the tables, and is no plainer
        match self {
            SettingFault::LinkWithoutFlow { link } => u32::from(link),
            SettingFault::RowsNotTheLinks => 0,
            SettingFault::GapUnlawful { row }
            | SettingFault::MtuUnlawful { row }
            | SettingFault::MessagesUnserved { row } => row,
            SettingFault::NotWithin { breach } => breach,
        }
    }

    /// What the refusal says in words.
    #[tactic(auto, unfolding(crate::specs::SettingFault::text))]
    fn text(self) -> &'static str
        ensures { result.now ≡ text self }
    {
        match self {
            SettingFault::LinkWithoutFlow { .. } => "a link has no flow",
            SettingFault::RowsNotTheLinks => "the rows are not the links in plan order",
            SettingFault::GapUnlawful { .. } => "the gap of a row is not one of the eight",
            SettingFault::MtuUnlawful { .. } => "the MTU of a row is not from 1 to 1471 bytes",
            SettingFault::MessagesUnserved { .. } => {
                "the pair of a row does not serve the flows of its link"
            }
            SettingFault::NotWithin { .. } => "the setting is not within the limit",
        }
    }
}

// By hand: what a derive writes promises no words.
impl fmt::Display for SettingFault {
    ghost output = { λ fault. Some (text fault) };

    fn fmt<W: fmt::Write>(&self, f: &mut fmt::Formatter<W>) -> fmt::Result {
        f.write_str(self.text())
    }
}
