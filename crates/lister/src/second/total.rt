use crate::second::rules::{total_bytes, total_units};
use limits::Pair;

/// A measure.
#[derive(Clone, Copy, Debug)]
pub(crate) enum MeasureKind {
    Reserve,
    Burst,
}

/// The total of pairs: what they reserve, or the bytes of their frames and what they reserve.
#[derive(Clone, Copy, Debug, PartialEq, Eq)]
pub(crate) enum Total {
    Reserve { units: u64 },
    Burst { bytes: u64, units: u64 },
}

impl MeasureKind {
    /// The total of the pairs.
    pub(crate) fn total_of(self, pairs: &[Pair]) -> Total {
        let units = total_units(pairs);
        match self {
            MeasureKind::Reserve => Total::Reserve { units },
            MeasureKind::Burst => Total::Burst {
                bytes: total_bytes(pairs),
                units,
            },
        }
    }
}

impl Total {
    /// Is this total no more than the other? Totals by two measures are not compared.
    pub(crate) fn is_no_more(self, other: Total) -> bool {
        match (self, other) {
            (Total::Reserve { units: own }, Total::Reserve { units }) => own <= units,
            (
                Total::Burst {
                    bytes: own_bytes,
                    units: own_units,
                },
                Total::Burst { bytes, units },
            ) => own_bytes < bytes || (own_bytes == bytes && own_units <= units),
            _ => false,
        }
    }
}
