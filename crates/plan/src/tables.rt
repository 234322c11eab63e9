use crate::bounds::{MAX_FLOWS, MAX_LINKS};
use crate::flow::Flow;
use arrayvec::ArrayVec;

/// The links in the order of their adding, and the flows in rising name.
#[derive(Drop)]
pub(crate) struct Tables {
    pub(crate) links: ArrayVec<u16, MAX_LINKS>,
    pub(crate) flows: ArrayVec<Flow, MAX_FLOWS>,
}
