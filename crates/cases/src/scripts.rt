use crate::desk::Desk;
use crate::fault::Fault;
use crate::told::Told;
use crate::words::Words;
use script::{Run, SCRIPT_MAX, write_lines};
use std::alloc::{AllocError, Global};

/// `bytes HEX ..`: more bytes of the script, each so many times as in `3*4C0007`. It tells how many there are now.
pub(crate) fn add_bytes(
    alloc: Global,
    desk: &mut Desk,
    words: &mut Words<'_>,
    told: &mut Told,
) -> Result<(), Fault> {
    for _ in 0..SCRIPT_MAX {
        let Some(word) = words.next() else {
            break;
        };
        let (times, digits) = word.split_once("*").unwrap_or(("1", word));
        let bytes = hex::decode(alloc, digits)?;
        for _ in 0..times.parse::<u16>()? {
            desk.script.extend_from_slice(&bytes)?;
        }
    }
    write!(told.text, "{}", desk.script.len())?;
    Ok(())
}

/// `lines`: the lines of the script, parted by slashes.
pub(crate) fn tell_lines(alloc: Global, desk: &mut Desk, told: &mut Told) -> Result<(), Fault> {
    let mut written = Vec::new(alloc);
    write_lines(&desk.script, &mut written)?;
    let text = String::from_utf8_lossy(alloc, &written)?;
    for (place, line) in text.as_str().lines().enumerate() {
        if place > 0 {
            told.text.push_str(" / ")?;
        }
        told.text.push_str(line)?;
    }
    write_last_refusal(&desk.script, told)?;
    desk.script.clear();
    Ok(())
}

/// The words of the last refusal of a run.
fn write_last_refusal(script: &[u8], told: &mut Told) -> Result<(), AllocError> {
    let mut run = Run::new(script);
    for _ in 0..SCRIPT_MAX {
        match run.step() {
            None => break,
            Some(Ok(_)) => {}
            Some(Err(fault)) => {
                told.words.clear();
                write!(told.words, "{}", fault.cause)?;
            }
        }
    }
    Ok(())
}
