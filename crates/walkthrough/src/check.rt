use crate::frames::frames_of_link;
use crate::notes::{print_accepted, print_refused, print_rows};
use limits::{Burst, Port, UNITS_PER_KBIT, total_of_pairs};
use plan::Plan;
use planner::{Row, SettingFault, check_port_setting};
use std::io;

/// Checks a setting at the port, and says why it is told so.
pub(crate) fn print_check(
    rt: &impl Print,
    plan: &Plan,
    port: Port,
    rows: &[Row; 2],
) -> io::Result<()> {
    print_rows(rt, rows)?;
    match check_port_setting(plan, port, rows) {
        Ok(()) => {
            print_accepted(rt)?;
            print_use(rt, port, rows)
        }
        Err(fault) => {
            print_refused(rt, fault.number(), fault.detail(), &fault)?;
            print_why(rt, plan, port, rows, fault)
        }
    }
}

/// Says why a setting was refused by the message rule or by the port.
fn print_why(
    rt: &impl Print,
    plan: &Plan,
    port: Port,
    rows: &[Row; 2],
    fault: SettingFault,
) -> io::Result<()> {
    match fault {
        SettingFault::MessagesUnserved { row } => {
            let at = (row as usize).saturating_sub(1);
            rows.get(at)
                .map_or(Ok(()), |row| print_frames(rt, plan, row))
        }
        SettingFault::NotWithin { breach } => {
            println!(rt;
                "   layer {breach} of the port's limit, the {}, does not admit it",
                layer_name(breach)
            )?;
            print_use(rt, port, rows)
        }
        _ => Ok(()),
    }
}

/// What the layer of a port's limit is that a breach counts down to, from the top.
fn layer_name(breach: u32) -> &'static str {
    match breach {
        1 => "floor",
        2 => "share",
        3 => "jitter",
        _ => "limit below",
    }
}

/// Says which frames the flows of the link of a row send, and how long their gaps take.
fn print_frames(rt: &impl Print, plan: &Plan, row: &Row) -> io::Result<()> {
    let Ok(common) = plan.common_cycle(row.link) else {
        return Ok(());
    };
    let Some(frames) = frames_of_link(plan.flows(), row.link, common, row.pair.mtu) else {
        return Ok(());
    };
    let needed = frames.saturating_mul(u64::from(row.pair.gap));
    println!(rt;
        "   the flows of link {} send {frames} frames in {common} ms, and their gaps take {needed} ms",
        row.link
    )
}

/// Says what a setting takes of the port, and what the port has.
pub(crate) fn print_use(rt: &impl Print, port: Port, rows: &[Row; 2]) -> io::Result<()> {
    let Some(total) = total_of_pairs(&Burst, &rows.map(|row| row.pair)) else {
        return Ok(());
    };
    let share = UNITS_PER_KBIT * u64::from(port.share());
    println!(rt;
        "   reserved: {} units of 1/16 kbit/s, and the share is {share}",
        total.units
    )?;
    // 8 × bytes / rate is at most 0.46 ms
    let room = 23 * u64::from(port.rate()) / 400;
    println!(rt;
        "   one frame of each link: {} bytes, and the port sends {room} in 460 microseconds",
        total.bytes
    )
}
