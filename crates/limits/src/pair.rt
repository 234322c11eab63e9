ghost use Rattle.std.specs.Prelude.{◌≡◌};
ghost use Rattle.limits.specs.Gaps.{eight_gaps};
ghost use Rattle.limits.specs.Lawful.{lawful_gap, lawful_mtu, lawful};

use crate::gaps::is_gap;

/// The smallest MTU, in bytes.
pub const MTU_MIN: u16 = 1;

/// The largest MTU, in bytes.
pub const MTU_MAX: u16 = 1471;

/// A bandwidth allocation gap in milliseconds and an MTU in bytes. The default fills places that hold no pair yet: it is unlawful.
#[derive(Clone, Copy, Debug, Default, PartialEq, Eq)]
pub struct Pair {
    pub gap: u16,
    pub mtu: u16,
}

impl Pair {
    /// Is the gap one of the eight?
    pub fn has_lawful_gap(self) -> bool
        ensures { result ≡ lawful_gap eight_gaps self }
    {
        is_gap(u32::from(self.gap))
    }

    /// Is the MTU from 1 to 1,471?
    pub fn has_lawful_mtu(self) -> bool
        ensures { result ≡ lawful_mtu self }
    {
        (MTU_MIN..=MTU_MAX).contains(&self.mtu)
    }

    /// Is the gap one of the eight, and the MTU from 1 to 1,471?
    pub fn is_lawful(self) -> bool
        ensures { result ≡ lawful eight_gaps self }
    {
        self.has_lawful_gap() && self.has_lawful_mtu()
    }
}
