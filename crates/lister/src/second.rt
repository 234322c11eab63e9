//! A second planner, which lists every complete selection straight from the rules. It shares no search, no candidate and no
//! limit with the planner that it is held against, only the types that carry figures: `Call`, `Pair` and `Row`.

pub(crate) mod candidates;
pub(crate) mod cycle;
pub(crate) mod port;
pub(crate) mod rules;
pub(crate) mod selections;
pub(crate) mod solve;
pub(crate) mod table;
pub(crate) mod told;
pub(crate) mod total;
pub(crate) mod visits;
