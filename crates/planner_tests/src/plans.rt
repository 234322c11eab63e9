use limits::Pair;
use plan::Plan;
use planner::Row;
use std::test::Fail;

/// What stands in a row of the answer table before a solve.
pub(crate) const BEFORE: Row = Row {
    link: 9999,
    pair: Pair { gap: 3, mtu: 9999 },
};

/// Link 1 with 200 bytes every 80 ms and 250 every 160 ms, and link 2 with 250 bytes every 220 ms and 200 every 40 ms.
///
/// By hand the first has the pairs (1,5), (2,9), (4,17), (8,34), (16,67), (32,200), and the second (1,7), (2,13), (4,25),
/// (8,50), (16,125), (32,250).
pub(crate) fn two_links() -> Result<Plan, Fail> {
    let mut plan = Plan::open();
    plan.add_link(1)?;
    plan.add_flow(1, 1, 200, 80)?;
    plan.add_flow(1, 2, 250, 160)?;
    plan.add_link(2)?;
    plan.add_flow(2, 3, 250, 220)?;
    plan.add_flow(2, 4, 200, 40)?;
    Ok(plan)
}

/// A row of a setting.
pub(crate) fn row(link: u16, gap: u16, mtu: u16) -> Row {
    Row {
        link,
        pair: Pair { gap, mtu },
    }
}
