use limits::{GAP_COUNT, Pair};
use plan::{Call, Flow, Plan, PlanFault};
use std::test::Fail;

/// Link 7 with 80 bytes every 10 ms.
fn one_flow() -> Result<Plan, Fail> {
    let mut plan = Plan::open();
    plan.add_link(7)?;
    plan.add_flow(7, 1, 80, 10)?;
    Ok(plan)
}

// By hand 80 bytes every 10 ms and 100 every 12 need 17 bytes of a frame every ms, 40 every 2 ms, and 100 every 4 ms.
#[test]
fn the_pairs_of_a_link(rt: HostRuntime) -> Result<(), Fail> {
    let mut plan = one_flow()?;
    plan.add_flow(7, 2, 100, 12)?;
    let mut place = [None; GAP_COUNT];
    plan.pairs(7, &mut place)?;
    let [first, second, third, ..] = place;
    assert_eq!(rt; first, Some(Pair { gap: 1, mtu: 17 }));
    assert_eq!(rt; second, Some(Pair { gap: 2, mtu: 40 }));
    assert_eq!(rt; third, Some(Pair { gap: 4, mtu: 100 }));
    assert_eq!(rt; plan.pairs(8, &mut place), Err(PlanFault::UnknownLink));
    Ok(())
}

#[test]
fn a_flow_is_amended(rt: HostRuntime) -> Result<(), Fail> {
    let mut plan = one_flow()?;
    plan.amend(1, 90, 20)?;
    let amended = Flow {
        name: 1,
        link: 7,
        payload: 90,
        cycle: 20,
    };
    assert_eq!(rt; plan.flows(), [amended].as_slice());
    plan.withdraw(1)?;
    assert_eq!(rt; plan.amend(1, 90, 20), Err(PlanFault::UnknownFlow));
    Ok(())
}

#[test]
fn a_list_of_calls_is_replayed(rt: HostRuntime) {
    let plan = Plan::replay(&[
        Call::AddLink { name: 7 },
        Call::AddLink { name: 7 },
        Call::AddLink { name: 9 },
    ]);
    assert_eq!(rt; plan.links(), [7, 9].as_slice());
}
