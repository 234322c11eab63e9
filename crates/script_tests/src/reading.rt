//! A reader on its own.
use plan::Call;
use script::{Command, PlacedCommand, Reader, ReaderFault};
use std::test::Fail;

/// A command that edits the plan.
fn edit(place: u32, call: Call) -> Result<Option<PlacedCommand>, ReaderFault> {
    placed(place, Command::Edit(call))
}

/// What is told of a command that is read.
fn placed(place: u32, command: Command) -> Result<Option<PlacedCommand>, ReaderFault> {
    Ok(Some(PlacedCommand { place, command }))
}

// Each byte of a number is another, to tell which is the high one.
#[test]
fn commands_of_every_kind(rt: HostRuntime) {
    let mut reader = Reader::new(
        b"P\x01\x02\x03\x04\x05\x06\x07\x08\x09\
          L\x11\x12\
          F\x21\x22\x23\x24\x25\x26\x27\x28\
          A\x31\x32\x33\x34\x35\x36\
          W\x41\x42\
          S\x51\x52\x53\x54\x55",
    );
    for told in [
        placed(
            0,
            Command::Port {
                rate: 0x0102_0304,
                share: 0x0506_0708,
                floor: 9,
            },
        ),
        edit(10, Call::AddLink { name: 0x1112 }),
        edit(
            13,
            Call::AddFlow {
                link: 0x2122,
                flow: 0x2324,
                payload: 0x2526,
                cycle: 0x2728,
            },
        ),
        edit(
            22,
            Call::Amend {
                flow: 0x3132,
                payload: 0x3334,
                cycle: 0x3536,
            },
        ),
        edit(29, Call::Withdraw { flow: 0x4142 }),
        placed(
            32,
            Command::Solve {
                measure: 0x51,
                allowance: 0x5253_5455,
            },
        ),
        Ok(None),
        Ok(None),
    ] {
        assert_eq!(rt; reader.next_command(), told);
    }
}

// The reader stays where it is, and tells the same again.
#[test]
fn refused_reads(rt: HostRuntime) {
    let cases: [(&[u8], ReaderFault); 6] = [
        (b"Q", ReaderFault::UnknownByte { place: 0 }),
        (b"P", ReaderFault::OperandsCut { place: 0 }),
        (b"W\x00", ReaderFault::OperandsCut { place: 0 }),
        (b"W\x00\x01", ReaderFault::PortMisplaced { place: 0 }),
        (
            b"S\x01\x00\x00\x00\x01P",
            ReaderFault::PortMisplaced { place: 0 },
        ),
        (b"\x00L\x00\x07", ReaderFault::UnknownByte { place: 0 }),
    ];
    for (script, fault) in cases {
        let mut reader = Reader::new(script);
        for _ in 0..3 {
            assert_eq!(rt; reader.next_command(), Err(fault), "of {script:?}");
        }
    }
}

#[test]
fn reads_refused_after_a_command(rt: HostRuntime) -> Result<(), Fail> {
    let cases: [(&[u8], ReaderFault); 4] = [
        (
            b"P\x00\x00\x27\x10\x00\x00\x27\x10\x01W\x00\x01\x57",
            ReaderFault::OperandsCut { place: 13 },
        ),
        (
            b"P\x00\x00\x27\x10\x00\x00\x27\x10\x01W\x00\x01\x58",
            ReaderFault::UnknownByte { place: 13 },
        ),
        (
            b"P\x00\x00\x27\x10\x00\x00\x27\x10\x01W\x00\x01P\x00\x00\x00\x00\x00\x00\x00\x00",
            ReaderFault::OperandsCut { place: 13 },
        ),
        (
            b"P\x00\x00\x27\x10\x00\x00\x27\x10\x01W\x00\x01P\x00\x00\x00\x00\x00\x00\x00\x00\x00",
            ReaderFault::PortMisplaced { place: 13 },
        ),
    ];
    for (script, fault) in cases {
        let mut reader = Reader::new(script);
        assert_eq!(rt;
            reader.next_command(),
            placed(
                0,
                Command::Port {
                    rate: 10_000,
                    share: 10_000,
                    floor: 1
                }
            )
        );
        assert_eq!(rt; reader.next_command(), edit(10, Call::Withdraw { flow: 1 }));
        for _ in 0..2 {
            assert_eq!(rt; reader.next_command(), Err(fault), "of {script:?}");
        }
    }
    Ok(())
}
