//! Text as lines of numbers: decimal numbers without padding, parted by single spaces and ended by a newline.
use crate::wrong::Wrong;
use std::alloc::{AllocError, Global};

/// The most numbers of a line.
const NUMBERS_MAX: usize = 5;

/// The numbers of a line.
pub(crate) type Line = Vec<u32>;

/// The lines of a text.
pub(crate) fn lines_of(alloc: Global, text: &[u8]) -> Result<Vec<Line>, Wrong> {
    let mut lines = Vec::new(alloc);
    if text.is_empty() {
        return Ok(lines);
    }
    let whole = text.strip_suffix(b"\n").ok_or(Wrong::NoNewline)?;
    for line in whole.split(|byte| *byte == b'\n') {
        lines.push(line_of(alloc, line)?).map_err(AllocError::from)?;
    }
    Ok(lines)
}

/// The numbers of a line without its newline.
fn line_of(alloc: Global, line: &[u8]) -> Result<Line, Wrong> {
    let mut numbers = Vec::new(alloc);
    for word in line.split(|byte| *byte == b' ') {
        let number = number_of(word).ok_or(Wrong::NoNumber)?;
        numbers.push(number).map_err(AllocError::from)?;
    }
    if numbers.len() > NUMBERS_MAX {
        return Err(Wrong::LineTooLong);
    }
    Ok(numbers)
}

/// The number of a decimal without padding.
fn number_of(digits: &[u8]) -> Option<u32> {
    if digits.is_empty() || (digits.len() > 1 && digits.starts_with(b"0")) {
        return None;
    }
    digits.iter().try_fold(0_u32, |number, digit| {
        let value = digit.checked_sub(b'0').filter(|value| *value < 10)?;
        number.checked_mul(10)?.checked_add(u32::from(value))
    })
}
