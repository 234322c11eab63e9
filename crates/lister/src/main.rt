//! Holds the planner against a second planner, on worked ports and on random ones: the second one lists every selection straight
//! from the rules.
#![tactic(auto)]

mod both;
mod by_planner;
mod documented;
mod edits;
mod figures;
mod flows;
mod full_plan;
mod layers;
mod links;
mod ports;
mod random;
mod report;
mod second;
mod solves;
mod standing;
mod subject;
mod tally;
mod worked_list;

use crate::documented::hold_documented;
use crate::full_plan::hold_full_plan;
use crate::links::hold_links;
use crate::ports::hold_port;
use crate::report::Report;
use crate::worked_list::hold_worked_ports;
use std::io;

/// How many random ports are solved.
const PORTS: u64 = 4000;

/// How many random links have their candidates compared.
const LINKS: u64 = 500;

/// How many random edits are made of a full plan.
const EDITS: u16 = 400;

fn main(rt: HostRuntime) -> io::Result<()> {
    let alloc = rt.alloc();
    let mut report = Report::new(&rt);
    hold_worked_ports(&mut report, alloc)?;
    hold_documented(&mut report, alloc)?;
    hold_links(&mut report, alloc, LINKS)?;
    hold_full_plan(&mut report, alloc, EDITS)?;
    for number in 1..=PORTS {
        hold_port(&mut report, alloc, number)?;
    }
    report.tally.print(&rt)
}
