use crate::plans::{BEFORE, row, two_links};
use crate::solving::found;
use limits::{Floor, Jitter, Layer, Open, Reserve, Share};
use planner::{SettingFault, SolveFault, WorkRow, check_setting, solve, work_row};
use std::array;
use std::test::Fail;

// Without a limit each link has its cheapest pair. A floor alone, and the layers of a port the other way round, admit what they
// do elsewhere.
#[test]
fn under_other_limits(rt: HostRuntime) -> Result<(), Fail> {
    let plan = two_links()?;
    let mut answer = [BEFORE; 2];
    let mut open: [WorkRow<Open, Reserve>; 3] = array::from_fn(|_| work_row(&Open, &Reserve));
    assert_eq!(rt;
        solve(&plan, &Open, &Reserve, 42, &mut answer, &mut open),
        found(2336, 42)
    );
    assert_eq!(rt; answer, [row(1, 32, 200), row(2, 32, 250)]);
    let mut floor: [WorkRow<Floor, Reserve>; 3] = array::from_fn(|_| work_row(
        &Floor { gap: 32 },
        &Reserve,
    ));
    for (gap, told) in [(32, found(2336, 12)), (33, Err(SolveFault::NothingWithin))] {
        assert_eq!(rt;
            solve(&plan, &Floor { gap }, &Reserve, 12, &mut answer, &mut floor),
            told,
            "from {gap}"
        );
    }
    let limit = Layer {
        rule: Jitter { rate: 10_156 },
        below: Layer {
            rule: Share { rate: 10_156 },
            below: Floor { gap: 8 },
        },
    };
    let mut layers: [WorkRow<Layer<Jitter, Layer<Share, Floor>>, Reserve>; 3] = array::from_fn(
        |_| work_row(&limit, &Reserve),
    );
    assert_eq!(rt;
        solve(&plan, &limit, &Reserve, 24, &mut answer, &mut layers),
        found(2340, 24)
    );
    assert_eq!(rt; answer, [row(1, 16, 67), row(2, 32, 250)]);
    Ok(())
}

// The pairs reserve 146.25 kbit/s, and their frames need 7,843.5 kbit/s. Jitter is the first rule here, and the share the last.
#[test]
fn a_setting_is_checked_under_any_limit(rt: HostRuntime) -> Result<(), Fail> {
    let plan = two_links()?;
    let rows = [row(1, 16, 67), row(2, 32, 250)];
    assert_eq!(rt; check_setting(&plan, &Share { rate: 147 }, &rows), Ok(()));
    assert_eq!(rt;
        check_setting(&plan, &Share { rate: 146 }, &rows),
        Err(SettingFault::NotWithin { breach: 1 })
    );
    let limit = Layer {
        rule: Jitter { rate: 7844 },
        below: Layer {
            rule: Floor { gap: 16 },
            below: Share { rate: 146 },
        },
    };
    assert_eq!(rt;
        check_setting(&plan, &limit, &rows),
        Err(SettingFault::NotWithin { breach: 3 })
    );
    Ok(())
}
