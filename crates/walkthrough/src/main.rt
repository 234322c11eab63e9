//! One integrator's task from beginning to end, with a note for each step.
#![tactic(auto)]

mod check;
mod few_fast;
mod frames;
mod notes;
mod offer;
mod order_book;
mod own;
mod port;
mod settings;
mod solve;
mod weighted;

use check::print_check;
use limits::{GAP_COUNT, Port};
use notes::{print_answer, print_call, print_standing};
use offer::print_pairs;
use order_book::ORDER_BOOK;
use own::print_own_solve;
use plan::Plan;
use planner::IssuedPlan;
use port::make_port;
use settings::settings;
use solve::{print_issued_solve, print_solve, print_solve_after};
use std::io;

fn main(rt: HostRuntime) -> io::Result<()> {
    println!(rt; "An integrator plans two links of an output port.")?;
    println!(rt)?;
    println!(rt; "1. Open an empty plan.")?;
    let mut plan = Plan::open();
    print_standing(&rt, &plan)?;
    println!(rt;
        "2. Go through the order book, one call after the other. A refused call changes nothing."
    )?;
    for call in ORDER_BOOK {
        print_call(&rt, call)?;
        print_answer(&rt, plan.perform(call))?;
    }
    println!(rt; "3. See what stands.")?;
    print_standing(&rt, &plan)?;
    println!(rt; "4. Replay the order book as a whole, from an empty plan. The same stands.")?;
    let replayed = Plan::replay(&ORDER_BOOK);
    print_standing(&rt, &replayed)?;
    ask_pairs(&rt, &replayed, 5, 7)?;
    ask_pairs(&rt, &replayed, 6, 9)?;
    let Some(port) = make_ports(&rt)? else {
        return Ok(());
    };
    check_settings(&rt, &replayed, port)?;
    ask_settings(&rt, &replayed, port)?;
    ask_own(&rt, &replayed)?;
    println!(rt;
        "12. Do it all in one call: the order book, from an empty plan, and then the solve of step 9. The same is offered."
    )?;
    print_solve_after(&rt, ORDER_BOOK, port, 9)?;
    println!(rt;
        "13. Issue the plan. An issued plan admits no change, and is solved as a plan is. The same is offered."
    )?;
    let issued = IssuedPlan::issue(replayed);
    print_issued_solve(&rt, &issued, port, 9)
}

/// Asks for the pairs of a link, and says what is offered.
fn ask_pairs(rt: &impl Print, plan: &Plan, step: u8, link: u16) -> io::Result<()> {
    println!(rt;
        "{step}. Ask for the pairs of link {link}: for each gap the least MTU that serves its flows."
    )?;
    let mut place = [None; GAP_COUNT];
    print_answer(rt, plan.pairs(link, &mut place))?;
    print_pairs(rt, plan, link, &place)
}

/// Makes the port, once with a slip in its figures.
fn make_ports(rt: &impl Print) -> io::Result<Option<Port>> {
    println!(rt; "7. Make the port. Its figures are checked first.")?;
    let _ = make_port(rt, 10_000, 10_001, 4)?;
    make_port(rt, 10_000, 401, 4)
}

/// Checks settings that were made elsewhere.
fn check_settings(rt: &impl Print, plan: &Plan, port: Port) -> io::Result<()> {
    println!(rt;
        "8. Check a setting that was made elsewhere, as it is and with a slip of one byte, and then at other ports."
    )?;
    let settings = settings();
    for setting in &settings {
        println!(rt; "   Check {}:", setting.note)?;
        print_check(rt, plan, port, &setting.rows)?;
    }
    let [offered, ..] = settings;
    for (rate, floor) in [(10_000, 8), (5000, 4)] {
        if let Some(other) = make_port(rt, rate, port.share(), floor)? {
            println!(rt; "   Check {} there:", offered.note)?;
            print_check(rt, plan, other, &offered.rows)?;
        }
    }
    Ok(())
}

/// Asks for the setting that reserves least, at the port and at slower ones.
fn ask_settings(rt: &impl Print, plan: &Plan, port: Port) -> io::Result<()> {
    println!(rt;
        "9. Ask for the setting that reserves least. The search tries beginnings of settings, each a visit, and may make only so many."
    )?;
    for allowance in [8, 9] {
        print_solve(rt, plan, port, allowance)?;
    }
    println!(rt; "10. Ask what the port could do at lower rates, with the same share and floor.")?;
    for rate in [7548, 7547, 5235, 5234] {
        if let Some(slower) = make_port(rt, rate, port.share(), port.floor())? {
            print_solve(rt, plan, slower, 9)?;
        }
    }
    Ok(())
}

/// Asks for settings under a limit and by a measure that this program brings.
fn ask_own(rt: &impl Print, plan: &Plan) -> io::Result<()> {
    println!(rt;
        "11. Solve under a limit and by a measure that the program itself brings. Beside what a port admits, only so many links may have a gap of 1 ms, and each byte of a frame counts as so many units more."
    )?;
    let Some(port) = make_port(rt, 3000, 3000, 1)? else {
        return Ok(());
    };
    for (most, byte) in [(2, 1088), (2, 1087), (1, 1088), (1, 271), (0, 271)] {
        print_own_solve(rt, plan, port, most, byte)?;
    }
    Ok(())
}
