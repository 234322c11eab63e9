use arrayvec::ArrayVec;
use limits::MAX_PAIRS;
use planner::Row;

/// What an accepted solve offers.
#[derive(Debug, PartialEq, Eq, Drop)]
pub struct Offer {
    /// What the setting reserves, in units of 1/16 kbit/s.
    pub units: u32,
    /// The bytes of one frame of every link together.
    pub bytes: u32,
    /// The visits of the search.
    pub visits: u32,
    /// The setting, a row for each link in plan order.
    pub rows: ArrayVec<Row, MAX_PAIRS>,
}
