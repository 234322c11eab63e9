use crate::offer::Offer;

/// A command that a run accepted: its number, from 1, and what it offers, if it is a solve.
#[derive(Debug, PartialEq, Eq, Drop)]
pub struct Accepted {
    pub command: u32,
    pub offer: Option<Offer>,
}
