//! Scripts that were sensible once.
use crate::command::Command;
use crate::random::Random;
use std::alloc::{AllocError, Global};

/// Changes up to four bytes.
pub(crate) fn change_bytes(script: &mut [u8], random: &mut Random) {
    for _ in 0..=random.below(4) {
        let at = random.below(script.len());
        if let Some(byte) = script.get_mut(at) {
            *byte = random.byte();
        }
    }
}

/// Turns up to four bits.
pub(crate) fn turn_bits(script: &mut [u8], random: &mut Random) {
    for _ in 0..=random.below(4) {
        let at = random.below(script.len());
        if let Some(byte) = script.get_mut(at) {
            *byte ^= random.pick(&[1, 2, 4, 8, 16, 32, 64, 128]);
        }
    }
}

/// The script without a piece of it.
pub(crate) fn without_piece(
    alloc: Global,
    script: &[u8],
    random: &mut Random,
) -> Result<Vec<u8>, AllocError> {
    let [before, _, behind] = in_three(script, random);
    joined(alloc, &[before, behind])
}

/// The script with a piece of it twice.
pub(crate) fn with_piece_twice(
    alloc: Global,
    script: &[u8],
    random: &mut Random,
) -> Result<Vec<u8>, AllocError> {
    let [before, piece, behind] = in_three(script, random);
    joined(alloc, &[before, piece, piece, behind])
}

/// The script with a byte put in.
pub(crate) fn with_byte_more(
    alloc: Global,
    script: &[u8],
    random: &mut Random,
) -> Result<Vec<u8>, AllocError> {
    let (before, behind) = in_two(script, random);
    joined(alloc, &[before, &[random.byte()], behind])
}

/// Swaps two commands.
pub(crate) fn swap_commands(commands: &mut [Command], random: &mut Random) {
    let first = random.below(commands.len());
    let second = random.below(commands.len());
    if first < commands.len() && second < commands.len() {
        commands.swap(first, second);
    }
}

/// Puts another command in.
pub(crate) fn put_in(
    commands: &mut Vec<Command>,
    command: Command,
    random: &mut Random,
) -> Result<(), AllocError> {
    let at = random.below(commands.len());
    if at <= commands.len() {
        commands.insert(at, command)?;
    }
    Ok(())
}

/// The first bytes of a script, so many of them.
pub(crate) fn cut_short(
    alloc: Global,
    script: &[u8],
    length: usize,
) -> Result<Vec<u8>, AllocError> {
    joined(alloc, &[script.get(..length).unwrap_or(script)])
}

/// The script, parted at any two places.
fn in_three<'a>(script: &'a [u8], random: &mut Random) -> [&'a [u8]; 3] {
    let (first, rest) = in_two(script, random);
    let (second, third) = in_two(rest, random);
    [first, second, third]
}

/// The script, parted at any place.
fn in_two<'a>(script: &'a [u8], random: &mut Random) -> (&'a [u8], &'a [u8]) {
    let at = random.below(script.len());
    script.split_at_checked(at).unwrap_or((script, &[]))
}

/// These parts, one after the other.
fn joined(alloc: Global, parts: &[&[u8]]) -> Result<Vec<u8>, AllocError> {
    let mut script = Vec::new(alloc);
    for part in parts {
        script.extend_from_slice(part)?;
    }
    Ok(script)
}
