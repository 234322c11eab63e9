use limits::Pair;

/// A row of a setting: a link by its name, and the pair that it is given. The default fills rows that hold no setting yet.
#[derive(Clone, Copy, Debug, Default, PartialEq, Eq)]
pub struct Row {
    pub link: u16,
    pub pair: Pair,
}
