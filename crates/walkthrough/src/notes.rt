use plan::{Call, Plan, PlanFault};
use planner::Row;
use std::{fmt, io};

/// Says what is called.
pub(crate) fn print_call(rt: &impl Print, call: Call) -> io::Result<()> {
    match call {
        Call::AddLink { name } => println!(rt; "   Add link {name}."),
        Call::AddFlow {
            link,
            flow,
            payload,
            cycle,
        } => println!(rt; "   Add flow {flow} to link {link}: {payload} bytes every {cycle} ms."),
        Call::Amend {
            flow,
            payload,
            cycle,
        } => println!(rt; "   Amend flow {flow}: {payload} bytes every {cycle} ms."),
        Call::Withdraw { flow } => println!(rt; "   Withdraw flow {flow}."),
    }
}

/// Says what a call of a plan told.
pub(crate) fn print_answer(rt: &impl Print, told: Result<(), PlanFault>) -> io::Result<()> {
    match told {
        Ok(()) => print_accepted(rt),
        Err(fault) => print_refused(rt, fault.number(), fault.detail(), &fault),
    }
}

/// Says that a call was accepted.
pub(crate) fn print_accepted(rt: &impl Print) -> io::Result<()> {
    println!(rt; "   accepted")
}

/// Says that a call was refused, with the number, the detail and the words of the refusal.
pub(crate) fn print_refused(
    rt: &impl Print,
    number: u8,
    detail: u32,
    words: &impl fmt::Display,
) -> io::Result<()> {
    println!(rt; "   refused, {number} {detail}: {words}")
}

/// Says which pair each row gives its link.
pub(crate) fn print_rows(rt: &impl Print, rows: &[Row; 2]) -> io::Result<()> {
    for row in rows {
        println!(rt;
            "   link {}: gap {} ms, MTU {} bytes",
            row.link, row.pair.gap, row.pair.mtu
        )?;
    }
    Ok(())
}

/// Says what stands in the plan.
pub(crate) fn print_standing(rt: &impl Print, plan: &Plan) -> io::Result<()> {
    println!(rt; "   links that stand: {:?}", plan.links())?;
    for flow in plan.flows() {
        println!(rt;
            "   flow {} of link {}: {} bytes every {} ms",
            flow.name, flow.link, flow.payload, flow.cycle
        )?;
    }
    Ok(())
}
