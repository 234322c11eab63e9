//! What may be written of a script, by the rules of scripts and lines alone.
use crate::command::Command;
use crate::line::Line;
use crate::offer::{Totals, judge_rows};
use crate::reading::{Next, next_of};
use crate::standing::{Refusal, Standing};
use crate::tally::Told;
use crate::wrong::Wrong;
use std::alloc::Global;

/// The most bytes of a script.
const SCRIPT_MAX: usize = 32_768;

/// What the first line of a command says.
#[derive(Clone, Copy)]
enum Answer {
    Accepted,
    Offered { totals: Totals, visits: u32 },
    Refused(Refusal),
}

/// What is left to be judged of a script and of its lines.
#[derive(Drop)]
struct Judge<'a> {
    script: &'a [u8],
    place: u32,
    lines: &'a [Line],
    standing: Standing,
    offers: u32,
}

/// Judges the lines of a script, and tells what they say of its commands.
pub(crate) fn judge_script(alloc: Global, script: &[u8], lines: &[Line]) -> Result<Told, Wrong> {
    let mut told = Told::default();
    let mut judge = Judge {
        script,
        place: 0,
        lines,
        standing: Standing::new(alloc),
        offers: 0,
    };
    if script.len() > SCRIPT_MAX {
        judge.judge_end(0, Refusal::plain(24))?;
        told.note(24);
        return judge.whole(told);
    }
    for command in 1..=SCRIPT_MAX as u32 {
        let Some(number) = judge.judge_next(command)? else {
            break;
        };
        told.note(number);
    }
    told.offers = judge.offers;
    judge.whole(told)
}

impl<'a> Judge<'a> {
    /// What was told, if no line is left.
    fn whole(&self, told: Told) -> Result<Told, Wrong> {
        if self.lines.is_empty() {
            Ok(told)
        } else {
            Err(Wrong::LineTooMany)
        }
    }

    /// Judges the lines of the next command, and tells its number; none where nothing is left.
    fn judge_next(&mut self, number: u32) -> Result<Option<u32>, Wrong> {
        let refused = match next_of(self.script) {
            Next::End => return Ok(None),
            Next::UnknownByte => 25,
            Next::OperandsCut => 26,
            Next::Command { command, .. } if is_port(command) != (self.place == 0) => 27,
            Next::Command { command, width } => {
                self.script = self.script.get(width as usize..).unwrap_or(&[]);
                self.place = self.place.saturating_add(width);
                return Ok(Some(self.judge_command(number, command)?));
            }
        };
        let due = Refusal {
            number: refused,
            detail: self.place,
        };
        self.judge_end(number, due)?;
        Ok(Some(refused))
    }

    /// Judges the lines of a command that was read whole.
    fn judge_command(&mut self, number: u32, command: Command) -> Result<u32, Wrong> {
        let answer = answer_of(self.next_line()?, number)?;
        match (answer, self.standing.due(command)) {
            (Answer::Refused(told), Some(due)) if told == due => {}
            (Answer::Refused(told), None) if self.may_be(command, told) => {}
            (Answer::Refused(Refusal { number, detail }), _) => {
                return Err(Wrong::Refused { number, detail });
            }
            (_, Some(due)) => return Err(Wrong::Accepted { due: due.number }),
            (Answer::Accepted, None) => self.judge_accepted(command)?,
            (Answer::Offered { totals, visits }, None) => self.judge_offer(
                command, totals, visits,
            )?,
        }
        let Answer::Refused(told) = answer else {
            return Ok(0);
        };
        if is_port(command) {
            self.script = &[];
        }
        Ok(told.number)
    }

    /// May the command be told this refusal where no other is due?
    fn may_be(&self, command: Command, told: Refusal) -> bool {
        match (command, told.number) {
            (Command::AddFlow { .. } | Command::Amend { .. }, 11) => told.detail == 0,
            (Command::Solve { .. }, 16) => {
                self.standing
                    .links
                    .iter()
                    .any(|link| u32::from(*link) == told.detail)
            }
            (Command::Solve { .. }, 17 | 18) => told.detail == 0 && !self.standing.links.is_empty(),
            _ => false,
        }
    }

    /// Judges a command that was accepted without an offer, and performs it.
    fn judge_accepted(&mut self, command: Command) -> Result<(), Wrong> {
        if matches!(command, Command::Solve { .. }) {
            return Err(Wrong::Offer);
        }
        Ok(self.standing.enter(command)?)
    }

    /// Judges what a solve offers.
    fn judge_offer(&mut self, command: Command, totals: Totals, visits: u32) -> Result<(), Wrong> {
        let Command::Solve { allowance, .. } = command else {
            return Err(Wrong::Offer);
        };
        let links = self.standing.links.len();
        if (visits as usize) < links || visits > allowance {
            return Err(Wrong::Visits);
        }
        let (rows, lines) = self
            .lines
            .split_at_checked(links)
            .ok_or(Wrong::LineMissing)?;
        self.lines = lines;
        self.offers = self.offers.saturating_add(1);
        judge_rows(rows, &self.standing, totals)
    }

    /// Judges a refusal that ends the run.
    fn judge_end(&mut self, command: u32, due: Refusal) -> Result<(), Wrong> {
        let answer = answer_of(self.next_line()?, command)?;
        self.script = &[];
        match answer {
            Answer::Refused(told) if told == due => Ok(()),
            Answer::Refused(Refusal { number, detail }) => Err(Wrong::Refused { number, detail }),
            _ => Err(Wrong::Accepted { due: due.number }),
        }
    }

    fn next_line(&mut self) -> Result<&'a Line, Wrong> {
        let (line, lines) = self.lines.split_first().ok_or(Wrong::LineMissing)?;
        self.lines = lines;
        Ok(line)
    }
}

/// What a line says of the command of this number.
fn answer_of(line: &Line, command: u32) -> Result<Answer, Wrong> {
    let (first, answer) = line.split_first().ok_or(Wrong::LineForm)?;
    if *first != command {
        return Err(Wrong::CommandNumber);
    }
    match answer {
        [0] => Ok(Answer::Accepted),
        [0, units, bytes, visits] => Ok(Answer::Offered {
            totals: Totals {
                units: u64::from(*units),
                bytes: u64::from(*bytes),
            },
            visits: *visits,
        }),
        [number, detail] => Ok(Answer::Refused(Refusal {
            number: *number,
            detail: *detail,
        })),
        _ => Err(Wrong::LineForm),
    }
}

fn is_port(command: Command) -> bool {
    matches!(command, Command::Port { .. })
}
