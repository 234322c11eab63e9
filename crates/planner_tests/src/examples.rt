use crate::plans::{BEFORE, row, two_links};
use limits::{Port, PortLimit, Reserve};
use planner::{SettingFault, WorkRow, check_port_setting, solve, work_row};
use std::array;
use std::test::Fail;

// The pairs reserve 146.25 kbit/s, and their frames need 7,843.5 kbit/s.
#[test]
fn a_setting_is_found_and_checked(rt: HostRuntime) -> Result<(), Fail> {
    let plan = two_links()?;
    let port = Port::new(10_000, 147, 16)?;
    let limit = port.limit();
    let mut answer = [BEFORE; 2];
    let mut work: [WorkRow<PortLimit, Reserve>; 3] = array::from_fn(|_| work_row(&limit, &Reserve));
    let solved = solve(&plan, &limit, &Reserve, 100, &mut answer, &mut work)?;
    assert_eq!(rt; solved.total, 2340);
    assert_eq!(rt; answer, [row(1, 16, 67), row(2, 32, 250)]);
    assert_eq!(rt; check_port_setting(&plan, port, &answer), Ok(()));
    let slow = Port::new(10_000, 146, 16)?;
    assert_eq!(rt;
        check_port_setting(&plan, slow, &answer),
        Err(SettingFault::NotWithin { breach: 2 })
    );
    Ok(())
}
