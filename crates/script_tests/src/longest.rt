//! The longest script, and one byte more.
use crate::scripts::PORT;
use script::{Reader, ReaderFault, SCRIPT_MAX, write_lines};
use std::alloc::{AllocError, Global};
use std::io::Write;
use std::test::Fail;

/// The figures of the port, the same link 10,917 times, and an amendment of 7 bytes: 10 + 3 × 10,917 + 7 = 32,768.
fn longest_script(alloc: Global) -> Result<Vec<u8>, AllocError> {
    let mut script = PORT.to_vec(alloc)?;
    for _ in 0..10_917 {
        script.extend_from_slice(b"L\x00\x07")?;
    }
    script.extend_from_slice(b"A\x00\x01\x00\x50\x00\x0A")?;
    Ok(script)
}

#[test]
fn a_script_of_32768_bytes_and_one_more(rt: HostRuntime) -> Result<(), Fail> {
    let mut script = longest_script(rt.alloc())?;
    assert_eq!(rt; script.len(), SCRIPT_MAX);
    assert!(rt; Reader::new(&script).next_command().is_ok());
    let mut lines = Vec::new(rt.alloc());
    write!(lines, "1 0\n2 0\n")?;
    for command in 3..10_919_u32 {
        writeln!(lines, "{command} 5 0")?;
    }
    writeln!(lines, "10919 12 0")?;
    let mut written = Vec::new(rt.alloc());
    write_lines(&script, &mut written)?;
    assert!(rt; written.as_slice() == lines.as_slice());
    script.push(b'L')?;
    let mut reader = Reader::new(&script);
    for _ in 0..2 {
        assert_eq!(rt; reader.next_command(), Err(ReaderFault::ScriptTooLong));
    }
    Ok(())
}
