/// The bytes of one frame of every pair, and what the pairs reserve in units of 1/16 kbit/s. Totals order by the bytes first.
#[derive(Clone, Copy, Debug, PartialEq, Eq, PartialOrd, Ord)]
pub struct BurstTotal {
    pub bytes: u32,
    pub units: u32,
}
