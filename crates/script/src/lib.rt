//! Scripts: a planner's task as bytes, and the lines that tell how each command went.
#![tactic(auto)]

pub mod accepted;
pub mod command;
mod kind;
mod lines;
pub mod offer;
mod planning;
pub mod reader;
pub mod reader_fault;
pub mod run;
pub mod run_fault;
mod solving;
mod steps;
mod whole;

pub use accepted::Accepted;
pub use command::{Command, PlacedCommand};
pub use lines::LINES_SIZE;
pub use offer::Offer;
pub use reader::{Reader, SCRIPT_MAX};
pub use reader_fault::ReaderFault;
pub use run::Run;
pub use run_fault::{Cause, RunFault};
pub use whole::write_lines;
