use planner::{SettingFault, SolveFault};

#[test]
fn greatest_details(rt: HostRuntime) {
    assert_eq!(rt;
        SettingFault::LinkWithoutFlow { link: 65_535 }.detail(),
        65_535
    );
    assert_eq!(rt;
        SettingFault::NotWithin { breach: u32::MAX }.detail(),
        u32::MAX
    );
    assert_eq!(rt;
        SolveFault::LinkWithoutCandidate { link: 65_535 }.detail(),
        65_535
    );
}

#[test]
fn which_call_the_port_unmeetable(rt: HostRuntime) {
    for (fault, number, unmeetable) in [
        (SolveFault::LinkWithoutFlow { link: 0 }, 13, false),
        (SolveFault::AnswerTableTooShort, 14, false),
        (SolveFault::WorkTableTooShort, 15, false),
        (SolveFault::LinkWithoutCandidate { link: 0 }, 16, true),
        (SolveFault::Spent, 17, false),
        (SolveFault::NothingWithin, 18, true),
    ] {
        assert_eq!(rt; fault.number(), number);
        assert_eq!(rt; fault.is_unmeetable(), unmeetable, "at {number}");
    }
}
