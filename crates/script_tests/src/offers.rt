//! A run, one command at a time.
use crate::scripts::TWO_LINKS;
use arrayvec::ArrayVec;
use limits::{Pair, PortFault};
use planner::Row;
use script::{Accepted, Cause, Offer, ReaderFault, Run, RunFault, SCRIPT_MAX};
use std::test::Fail;

/// What is told of a command that is accepted and offers nothing.
fn accepted(command: u32) -> Option<Result<Accepted, RunFault>> {
    Some(Ok(Accepted {
        command,
        offer: None,
    }))
}

/// What is told of a command that is refused.
fn refused(command: u32, cause: Cause) -> Option<Result<Accepted, RunFault>> {
    Some(Err(RunFault { command, cause }))
}

/// A row of a setting.
fn row(link: u16, gap: u16, mtu: u16) -> Row {
    Row {
        link,
        pair: Pair { gap, mtu },
    }
}

#[test]
fn offers_of_two_links(rt: HostRuntime) -> Result<(), Fail> {
    let mut run = Run::new(TWO_LINKS);
    for command in 1..8 {
        assert_eq!(rt; run.step(), accepted(command));
    }
    let setting = [row(1, 16, 67), row(2, 32, 250)];
    let offer = Some(Offer {
        units: 2340,
        bytes: 451,
        visits: 42,
        rows: ArrayVec::try_from(setting.as_slice())?,
    });
    assert_eq!(rt; run.step(), Some(Ok(Accepted { command: 8, offer })));
    let setting = [row(1, 1, 5), row(2, 1, 7)];
    let offer = Some(Offer {
        units: 18_688,
        bytes: 146,
        visits: 36,
        rows: ArrayVec::try_from(setting.as_slice())?,
    });
    assert_eq!(rt; run.step(), Some(Ok(Accepted { command: 9, offer })));
    assert_eq!(rt; run.step(), None);
    assert_eq!(rt; run.step(), None);
    Ok(())
}

#[test]
fn a_script_too_long_is_refused_as_command_0(rt: HostRuntime) {
    let script = [b'L'; SCRIPT_MAX + 1];
    let mut run = Run::new(&script);
    assert_eq!(rt;
        run.step(),
        refused(0, Cause::Reader(ReaderFault::ScriptTooLong))
    );
    assert_eq!(rt; run.step(), None);
}

#[test]
fn figures_of_a_port_refused(rt: HostRuntime) {
    let mut run = Run::new(b"P\x00\x00\x00\x01\x00\x00\x00\x02\x01L\x00\x07");
    assert_eq!(rt;
        run.step(),
        refused(1, Cause::Port(PortFault::ShareOutOfRange))
    );
    assert_eq!(rt; run.step(), None);
    assert_eq!(rt; run.step(), None);
}
