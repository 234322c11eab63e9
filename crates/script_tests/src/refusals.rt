use limits::PortFault;
use plan::PlanFault;
use planner::SolveFault;
use script::{Cause, ReaderFault};

// The number and the detail of what is wrapped, with details at their greatest.
#[test]
fn a_cause_tells_what_it_wraps(rt: HostRuntime) {
    for (cause, number, detail) in [
        (Cause::Port(PortFault::FloorNotAGap), 3, 0),
        (Cause::Plan(PlanFault::TooManyLinks), 4, 0),
        (
            Cause::Solve(SolveFault::LinkWithoutFlow { link: 65_535 }),
            13,
            65_535,
        ),
        (
            Cause::Reader(ReaderFault::UnknownByte { place: 32_767 }),
            25,
            32_767,
        ),
        (Cause::UnknownMeasure, 28, 0),
    ] {
        assert_eq!(rt; cause.number(), number);
        assert_eq!(rt; cause.detail(), detail);
    }
}
