use limits::Pair;

/// A rule that a port may have for the pairs of its links.
#[derive(Clone, Copy)]
pub(crate) enum Rule {
    /// No gap is below so many ms.
    Floor(u32),
    /// The links reserve at most so many kbit/s.
    Share(u32),
    /// A port of so many kbit/s sends a frame of every link within 460 microseconds.
    Jitter(u32),
}

impl Rule {
    /// Does the rule admit these pairs?
    fn admits(self, pairs: &[Pair]) -> bool {
        match self {
            Rule::Floor(least) => pairs.iter().all(|pair| u32::from(pair.gap) >= least),
            Rule::Share(kbit) => total_units(pairs) <= 16 * u64::from(kbit),
            Rule::Jitter(rate) => total_bytes(pairs).saturating_mul(400) <= 23 * u64::from(rate),
        }
    }
}

/// Do all the rules admit these pairs?
pub(crate) fn are_within(rules: &[Rule], pairs: &[Pair]) -> bool {
    rules.iter().all(|rule| rule.admits(pairs))
}

/// The bytes that a frame of the pair counts with.
fn bytes(pair: Pair) -> u64 {
    u64::from(pair.mtu) + 67
}

/// What the pair reserves, in units of 1/16 kbit/s. A gap of no length would reserve without end.
fn units(pair: Pair) -> u64 {
    bytes(pair)
        .saturating_mul(128)
        .checked_div(u64::from(pair.gap))
        .unwrap_or(u64::MAX)
}

/// The bytes of one frame of every pair.
pub(crate) fn total_bytes(pairs: &[Pair]) -> u64 {
    pairs
        .iter()
        .fold(0_u64, |sum, pair| sum.saturating_add(bytes(*pair)))
}

/// What the pairs reserve together.
pub(crate) fn total_units(pairs: &[Pair]) -> u64 {
    pairs
        .iter()
        .fold(0_u64, |sum, pair| sum.saturating_add(units(*pair)))
}
