//! Gap and MTU pairs, what a port admits of them, and what they cost.
#![tactic(auto)]

mod breach;
pub mod burst;
pub mod burst_total;
mod figure;
pub mod floor;
mod frame;
pub mod gaps;
pub mod jitter;
pub mod layer;
pub mod limit;
pub mod measure;
pub mod open;
pub mod pair;
pub mod port;
pub mod port_fault;
pub mod reserve;
mod selection;
pub mod share;

pub use burst::Burst;
pub use burst_total::BurstTotal;
pub use floor::Floor;
pub use frame::UNITS_PER_KBIT;
pub use gaps::{GAP_COUNT, GAPS};
pub use jitter::Jitter;
pub use layer::{Layer, LayerLoad, LayerWeight};
pub use limit::Limit;
pub use measure::Measure;
pub use open::Open;
pub use pair::{MTU_MAX, MTU_MIN, Pair};
pub use port::{Port, PortLimit};
pub use port_fault::PortFault;
pub use reserve::Reserve;
pub use selection::{MAX_PAIRS, breach_of_pairs, total_of_pairs};
pub use share::Share;
