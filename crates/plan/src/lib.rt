//! The plan of one output port: its links, their flows, and the pairs that serve a link.
#![tactic(auto)]

ghost use Rattle.plan.specs.Sound.{Sound};

use tables::Tables;

mod bounds;
pub mod call;
mod candidate;
mod cycle;
mod edits;
mod entries;
pub mod fault;
pub mod flow;
mod link;
mod link_flows;
mod lookup;
mod message;
mod queries;
mod questions;
mod replay;
mod service;
mod tables;

pub use call::Call;
pub use fault::PlanFault;
pub use flow::Flow;

/// The links of a port, in the order of their adding, and their flows.
#[derive(Drop)]
pub struct Plan {
    tables: Tables,
    // a field and no model, since callers use it in their proofs, and a model would hide it from them
    ghost sound: { Sound tables },
}
