/// What a solve reports of the setting that it wrote: what it totals, and how many visits the search took.
#[derive(Clone, Copy, Debug, PartialEq, Eq)]
pub struct Solved<T> {
    pub total: T,
    pub visits: u32,
}
