ghost use Rattle.std.specs.Prelude.{◌≡◌, ◌+◌, ◌≤◌, [], ◌∷◌, ◌++◌, length, decimal, IfSome};
ghost use Rattle.std.specs.Option.{option_map};
ghost use Rattle.script.specs.Lines.{lines_size, line, offer_lines, told_lines, written};
ghost use Rattle.script.specs.Outcome.{numbered};
ghost use Rattle.script.specs.Run.{state};
ghost use Rattle.script.specs.RunFault.{number, detail};
ghost use Rattle.script.specs.Script.{GoesFurther};
ghost use Rattle.script.specs.State.{next_told, next_state};

use crate::accepted::Accepted;
use crate::offer::Offer;
use crate::run::Run;
use crate::run_fault::{Cause, RunFault};
use arrayvec::ArrayVec;
use itoa::Buffer;

/// How many bytes a buffer for the lines of one command has: enough for those of any command.
pub const LINES_SIZE: usize = 2048;

/// The lines of a command, while they are made.
type Lines = ArrayVec<u8, LINES_SIZE>;

impl Run<'_> {
    /// Performs the next command and writes the lines that tell how it went into the buffer, from its first byte on. It tells how
    /// many bytes they are; nothing where the script is at its end, or a refusal has ended the run.
    pub fn next_lines(&mut self, buffer: &mut [u8; LINES_SIZE]) -> Option<usize>
        ensures told { result ≡ option_map (λ told. length (told_lines told)) (next_told (state self.old)) }
        ensures fits { IfSome result (λ count. count ≤ lines_size) }
        ensures bytes { buffer.new ≡ written (option_map told_lines (next_told (state self.old))) buffer.old }
        ensures state { state self.new ≡ next_state (state self.old) }
        ensures further { GoesFurther (state self.old) (next_told (state self.old)) (state self.new) }
    {
        let told = self.step()?;
        let lines = lines_of(&told);
        buffer[..lines.len()].copy_from_slice(&lines);
        Some(lines.len())
    }
}

/// The lines that tell how a command went.
fn lines_of(told: &Result<Accepted, RunFault>) -> Lines
    ensures { result.items ≡ told_lines (numbered told.now) }
{
    let mut lines = Lines::new();
    match told {
        Ok(accepted) => match &accepted.offer {
            None => push_answer(&mut lines, accepted.command),
            Some(offer) => push_offer(&mut lines, accepted.command, offer),
        },
        Err(fault) => push_refusal(&mut lines, fault.command, fault.cause),
    }
    lines
}

/// Adds the line of an accepted command that offers nothing.
#[tactic(auto, using(crate::proofs::Lengths::answer_short))]
fn push_answer(lines: &mut Lines, command: u32)
    requires { lines.now.items ≡ [] }
    ensures { lines.new.items ≡ line command (0 ∷ []) }
{
    push_line(lines, command, &[0]);
}

/// Adds the line of a refused command.
#[tactic(auto, using(crate::proofs::Lengths::refusal_short))]
fn push_refusal(lines: &mut Lines, command: u32, cause: Cause)
    requires { lines.now.items ≡ [] }
    ensures { lines.new.items ≡ line command (number cause ∷ detail cause ∷ []) }
{
    let number = u32::from(cause.number());
    push_line(lines, command, &[number, cause.detail()]);
}

/// Adds the lines of a solve.
fn push_offer(lines: &mut Lines, command: u32, offer: &Offer)
    requires { lines.now.items ≡ [] }
    ensures { lines.new.items ≡ offer_lines command offer.now }
{
    push_figures(lines, command, offer.units, offer.bytes, offer.visits);
    for row in offer.rows.as_slice() {
        push_row(lines, row.link, row.pair.gap, row.pair.mtu);
    }
}

/// Begins with the first line of a solve.
#[tactic(auto, using(crate::proofs::Lengths::figures_short))]
fn push_figures(lines: &mut Lines, command: u32, units: u32, bytes: u32, visits: u32)
    requires { lines.now.items ≡ [] }
    ensures line { lines.new.items ≡ line command (0 ∷ units ∷ bytes ∷ visits ∷ []) }
    ensures short { length lines.new.items ≤ 55 }
{
    push_line(lines, command, &[0, units, bytes, visits]);
}

/// Adds the line of a row.
fn push_row(lines: &mut Lines, link: u16, gap: u16, mtu: u16)
    requires { length lines.now.items + 18 ≤ lines_size }
    ensures line { lines.new.items ≡ lines.old.items ++ line link (gap ∷ mtu ∷ []) }
    ensures short { length lines.new.items ≤ length lines.old.items + 18 }
{
    push_line(lines, u32::from(link), &[u32::from(gap), u32::from(mtu)]);
}

/// Adds a line of numbers.
fn push_line(lines: &mut Lines, first: u32, others: &[u32])
    requires { length lines.now.items + length (line first others.now) ≤ lines_size }
    ensures { lines.new.items ≡ lines.old.items ++ line first others.now }
{
    push_number(lines, first);
    for number in others {
        lines.push(b' ');
        push_number(lines, *number);
    }
    lines.push(b'\n');
}

/// Adds a number in decimal.
fn push_number(lines: &mut Lines, number: u32)
    requires { length lines.now.items + length (decimal number) ≤ lines_size }
    ensures { lines.new.items ≡ lines.old.items ++ decimal number }
{
    let mut digits = Buffer::new();
    let text = digits.format(number).as_bytes();
    lines.try_extend_from_slice(text).unwrap();
}
