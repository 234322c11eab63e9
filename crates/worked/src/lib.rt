//! Worked ports: plans and questions whose answers were worked out apart from the program, as one list.
#![tactic(auto)]

mod entries;
mod list;
mod plans;
pub mod worked_port;

pub use list::{WORKED_PORT_COUNT, worked_ports};
pub use worked_port::{Asked, By, CALL_PLACES, Told, WORKED_LINKS, WorkedPort};
