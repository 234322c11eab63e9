//! The figures that the documents work out, beside those of the worked ports.
use crate::report::Report;
use crate::subject::Subject;
use crate::worked_list::hold_question;
use limits::Pair;
use plan::Call;
use planner::{Row, Solved};
use std::alloc::Global;
use std::io;
use worked::{Asked, By, Told};

/// Holds the planners on each of them.
pub(crate) fn hold_documented(
    report: &mut Report<'_, impl Print>,
    alloc: Global,
) -> io::Result<()> {
    hold_edges(report, alloc)?;
    hold_amendments(report, alloc)?;
    hold_common_cycles(report, alloc)?;
    let one_link = [Call::AddLink { name: 1 }, add_flow(1, 1, 201, 3)];
    let first_of_equals = Told::ByReserve {
        solved: Solved {
            total: 17_152,
            visits: 2,
        },
        rows: [row(1, 1, 67), Row::default()],
    };
    hold(
        report,
        alloc,
        &one_link,
        solve(100_000, 100_000, 2),
        first_of_equals,
    )
}

/// The least share and the least rate that admit a setting.
fn hold_edges(report: &mut Report<'_, impl Print>, alloc: Global) -> io::Result<()> {
    let least = [(16, 67), (32, 250)];
    let calls = &two_links();
    hold(
        report,
        alloc,
        calls,
        solve(10_000, 147, 24),
        found(2340, 24, least),
    )?;
    hold(report, alloc, calls, solve(10_000, 146, 24), refused(18, 0))?;
    hold(
        report,
        alloc,
        calls,
        solve(7844, 7844, 42),
        found(2340, 42, least),
    )?;
    hold(
        report,
        alloc,
        calls,
        solve(7843, 7843, 42),
        found(2608, 42, [(16, 67), (16, 125)]),
    )
}

/// Solves after amendments, with each plan made of the one before.
fn hold_amendments(report: &mut Report<'_, impl Print>, alloc: Global) -> io::Result<()> {
    let mut calls = two_links().to_vec(alloc)?;
    calls.push(amend(4, 200, 20))?;
    let faster = found(3204, 36, [(32, 200), (16, 200)]);
    hold(report, alloc, &calls, solve(10_000, 10_000, 36), faster)?;
    calls.push(amend(4, 200, 40))?;
    calls.push(amend(1, 400, 80))?;
    let longer = found(2804, 42, [(16, 125), (32, 250)]);
    hold(report, alloc, &calls, solve(10_000, 10_000, 42), longer)?;
    calls.push(amend(3, 8192, 5))?;
    hold(
        report,
        alloc,
        &calls,
        solve(10_000, 10_000, 0),
        refused(16, 2),
    )?;
    calls.push(Call::AddLink { name: 5 })?;
    hold(
        report,
        alloc,
        &calls,
        solve(10_000, 10_000, 0),
        refused(13, 5),
    )
}

/// Flows whose common cycle would be too long, or would be with a cycle that is amended.
fn hold_common_cycles(report: &mut Report<'_, impl Print>, alloc: Global) -> io::Result<()> {
    let links = [Call::AddLink { name: 7 }, Call::AddLink { name: 9 }];
    let mut calls = links.to_vec(alloc)?;
    calls.push(add_flow(9, 4, 200, 1000))?;
    let other = add_flow(9, 3, 250, 1001);
    hold(report, alloc, &calls, Asked::Edit(other), refused(11, 0))?;
    calls.push(other)?;
    hold(
        report,
        alloc,
        &calls,
        Asked::Edit(amend(4, 200, 1001)),
        Told::Accepted,
    )?;
    calls.push(amend(4, 200, 1001))?;
    calls.push(add_flow(7, 3, 250, 160))?;
    calls.push(Call::Withdraw { flow: 3 })?;
    hold(report, alloc, &calls, Asked::Edit(other), Told::Accepted)
}

/// Holds the planners on one question.
fn hold(
    report: &mut Report<'_, impl Print>,
    alloc: Global,
    calls: &[Call],
    asked: Asked,
    told: Told,
) -> io::Result<()> {
    let number = report.tally.note_documented();
    hold_question(
        report,
        alloc,
        Subject::Documented(number),
        calls,
        asked,
        told,
    )
}

/// Link 1 with 200 bytes every 80 ms and 250 every 160 ms, and link 2 with 250 bytes every 220 ms and 200 every 40 ms.
const fn two_links() -> [Call; 6] {
    [
        Call::AddLink { name: 1 },
        add_flow(1, 1, 200, 80),
        add_flow(1, 2, 250, 160),
        Call::AddLink { name: 2 },
        add_flow(2, 3, 250, 220),
        add_flow(2, 4, 200, 40),
    ]
}

const fn add_flow(link: u16, flow: u16, payload: u16, cycle: u16) -> Call {
    Call::AddFlow {
        link,
        flow,
        payload,
        cycle,
    }
}

const fn amend(flow: u16, payload: u16, cycle: u16) -> Call {
    Call::Amend {
        flow,
        payload,
        cycle,
    }
}

/// A solve by reserve, at any gap.
const fn solve(rate: u32, share: u32, allowance: u32) -> Asked {
    Asked::Solve {
        rate,
        share,
        floor: 1,
        by: By::Reserve,
        allowance,
    }
}

const fn row(link: u16, gap: u16, mtu: u16) -> Row {
    Row {
        link,
        pair: Pair { gap, mtu },
    }
}

/// A setting of links 1 and 2.
const fn found(total: u32, visits: u32, setting: [(u16, u16); 2]) -> Told {
    let [(gap, mtu), (next_gap, next_mtu)] = setting;
    Told::ByReserve {
        solved: Solved { total, visits },
        rows: [row(1, gap, mtu), row(2, next_gap, next_mtu)],
    }
}

const fn refused(number: u8, detail: u32) -> Told {
    Told::Refused { number, detail }
}
