//! The buffer that is lent for the lines of a command.
use crate::scripts::TWO_LINKS;
use script::{LINES_SIZE, Run, write_lines};
use std::process::Abort;
use std::test::Fail;

/// What stands in every byte of the buffer before a call.
const BEFORE: u8 = 0xEE;

/// The next command has these lines, and past them the buffer is left as it was.
fn expect_next(rt: &impl Abort, run: &mut Run<'_>, lines: &[u8]) {
    let mut expected = [BEFORE; LINES_SIZE];
    for (place, byte) in expected.iter_mut().zip(lines) {
        *place = *byte;
    }
    let mut buffer = [BEFORE; LINES_SIZE];
    assert_eq!(rt; run.next_lines(&mut buffer), Some(lines.len()));
    assert!(rt; buffer == expected);
}

/// There is no next command, and the buffer is left as it was.
fn expect_none(rt: &impl Abort, run: &mut Run<'_>) {
    let mut buffer = [BEFORE; LINES_SIZE];
    assert_eq!(rt; run.next_lines(&mut buffer), None);
    assert!(rt; buffer == [BEFORE; LINES_SIZE]);
}

#[test]
fn bytes_past_the_lines_stay(rt: HostRuntime) -> Result<(), Fail> {
    let mut run = Run::new(TWO_LINKS);
    for lines in [
        b"1 0\n", b"2 0\n", b"3 0\n", b"4 0\n", b"5 0\n", b"6 0\n", b"7 0\n",
    ] {
        expect_next(&rt, &mut run, lines);
    }
    expect_next(&rt, &mut run, b"8 0 2340 451 42\n1 16 67\n2 32 250\n");
    expect_next(&rt, &mut run, b"9 0 18688 146 36\n1 1 5\n2 1 7\n");
    expect_none(&rt, &mut run);
    expect_none(&rt, &mut run);
    Ok(())
}

#[test]
fn after_a_refusal_that_ends_the_run(rt: HostRuntime) -> Result<(), Fail> {
    let cases: [(&[u8], &[u8]); 4] = [
        (
            b"P\x00\x00\x00\x00\x00\x00\x00\x01\x01L\x00\x07",
            b"1 1 0\n",
        ),
        (b"Q\x00\x07", b"1 25 0\n"),
        (b"L\x00", b"1 26 0\n"),
        (b"L\x00\x07L\x00\x07", b"1 27 0\n"),
    ];
    for (script, lines) in cases {
        let mut run = Run::new(script);
        expect_next(&rt, &mut run, lines);
        expect_none(&rt, &mut run);
        expect_none(&rt, &mut run);
    }
    Ok(())
}

// `step` and `next_lines` perform one command each.
#[test]
fn steps_between_lines(rt: HostRuntime) -> Result<(), Fail> {
    let mut run = Run::new(b"P\x00\x00\x27\x10\x00\x00\x27\x10\x01L\x00\x07L\x00\x07L\x00\x08");
    expect_next(&rt, &mut run, b"1 0\n");
    assert!(rt; run.step().is_some());
    expect_next(&rt, &mut run, b"3 5 0\n");
    expect_next(&rt, &mut run, b"4 0\n");
    assert!(rt; run.step().is_none());
    expect_none(&rt, &mut run);
    Ok(())
}

// The second line does not fit.
#[test]
fn a_writer_that_fails(rt: HostRuntime) -> Result<(), Fail> {
    let script = b"P\x00\x00\x27\x10\x00\x00\x27\x10\x01L\x00\x07";
    let mut place = [BEFORE; 6];
    let mut rest = place.as_mut_slice();
    assert!(rt; write_lines(script, &mut rest).is_err());
    assert_eq!(rt; place.as_slice(), b"1 0\n2 ".as_slice());
    Ok(())
}

#[test]
fn an_empty_script_has_no_lines(rt: HostRuntime) {
    let mut run = Run::new(&[]);
    expect_none(&rt, &mut run);
    expect_none(&rt, &mut run);
}
