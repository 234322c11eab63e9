/// The most links in a plan.
pub(crate) const MAX_LINKS: usize = 64;

/// The most flows in a plan, of all its links together.
pub(crate) const MAX_FLOWS: usize = 256;

/// The largest payload of a flow, in bytes.
pub(crate) const MAX_PAYLOAD: u16 = 8192;

/// The longest cycle of a flow, in milliseconds.
pub(crate) const MAX_CYCLE: u16 = 10_000;

/// The longest common cycle of a link, in milliseconds.
pub(crate) const MAX_COMMON_CYCLE: u64 = 1_000_000;
