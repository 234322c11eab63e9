//! What the library writes of a script.
use crate::judge::judge_script;
use crate::line::lines_of;
use crate::tally::Told;
use crate::wrong::Wrong;
use script::{LINES_SIZE, Run, SCRIPT_MAX, write_lines};
use std::alloc::{AllocError, Global};

/// Runs a script as a whole and step by step, and judges its lines. It tells what they say of the commands, and how many
/// they are.
pub(crate) fn try_script(alloc: Global, script: &[u8]) -> Result<(Told, usize), Wrong> {
    let mut text = Vec::new(alloc);
    write_lines(script, &mut text).map_err(|_| Wrong::Memory)?;
    if text.as_slice() != text_by_steps(alloc, script)?.as_slice() {
        return Err(Wrong::StepsDiffer);
    }
    let lines = lines_of(alloc, &text)?;
    let told = judge_script(alloc, script, &lines)?;
    Ok((told, lines.len()))
}

/// The lines of each command, one after the other. A script has no more commands than bytes.
fn text_by_steps(alloc: Global, script: &[u8]) -> Result<Vec<u8>, AllocError> {
    let mut text = Vec::new(alloc);
    let mut run = Run::new(script);
    let mut buffer = [0; LINES_SIZE];
    for _ in 0..SCRIPT_MAX {
        let Some(length) = run.next_lines(&mut buffer) else {
            break;
        };
        text.extend_from_slice(buffer.get(..length).unwrap_or(&buffer))?;
    }
    Ok(text)
}
