/// How a search ends.
#[derive(Clone, Copy)]
pub(crate) enum Outcome<T> {
    /// The visits are more than the allowance.
    Spent,
    /// No complete selection is within the limit.
    NoneWithin { visits: u32 },
    /// The named setting is found.
    Found { total: T, visits: u32 },
}
