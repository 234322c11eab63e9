//! Settings of a port: which pair each link is given.
#![tactic(auto)]

mod answer_table;
pub mod call;
mod check;
mod first_failing;
pub mod issued_plan;
mod outcome;
mod port_check;
mod replay;
pub mod row;
mod search;
pub mod search_row;
pub mod setting_fault;
pub mod solve_fault;
pub mod solved;
mod solver;
mod work_table;

pub use call::{PlannerCall, SolveCall};
pub use check::check_setting;
pub use issued_plan::IssuedPlan;
pub use port_check::check_port_setting;
pub use replay::solve_after;
pub use row::Row;
pub use search_row::{WorkRow, work_row};
pub use setting_fault::SettingFault;
pub use solve_fault::SolveFault;
pub use solved::Solved;
pub use solver::solve;
