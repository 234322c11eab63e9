use std::fmt;

/// The numbers that a command of a script can be told: 0 where it is accepted, else that of its refusal.
const NUMBERS: [u32; 22] = [
    0, 1, 2, 3, 4, 5, 6, 7, 8, 9, 10, 11, 12, 13, 16, 17, 18, 24, 25, 26, 27, 28,
];

/// How often each number was told, and how many of the accepted commands are solves.
#[derive(Clone, Copy, Default)]
pub(crate) struct Told {
    pub(crate) offers: u32,
    times: [u32; NUMBERS.len()],
}

impl Told {
    /// Counts a command that was told this number.
    pub(crate) fn note(&mut self, number: u32) {
        for (known, times) in NUMBERS.iter().zip(self.times.iter_mut()) {
            if *known == number {
                *times = times.saturating_add(1);
            }
        }
    }

    /// Counts what the other counts, too.
    fn add(&mut self, other: &Told) {
        for (times, more) in self.times.iter_mut().zip(&other.times) {
            *times = times.saturating_add(*more);
        }
        self.offers = self.offers.saturating_add(other.offers);
    }
}

/// What has come of some scripts.
#[derive(Clone, Copy, Default)]
pub(crate) struct Tally {
    scripts: u32,
    lines: usize,
    wrong: u32,
    pub(crate) told: Told,
}

impl Tally {
    /// Counts a script with its lines.
    pub(crate) fn note(&mut self, told: &Told, lines: usize) {
        self.scripts = self.scripts.saturating_add(1);
        self.lines = self.lines.saturating_add(lines);
        self.told.add(told);
    }

    /// Counts a script of which something else than its lines was written.
    pub(crate) fn note_wrong(&mut self) {
        self.scripts = self.scripts.saturating_add(1);
        self.wrong = self.wrong.saturating_add(1);
    }

    /// Counts what the other counts, too.
    pub(crate) fn add(&mut self, other: &Tally) {
        self.scripts = self.scripts.saturating_add(other.scripts);
        self.lines = self.lines.saturating_add(other.lines);
        self.wrong = self.wrong.saturating_add(other.wrong);
        self.told.add(&other.told);
    }
}

impl fmt::Display for Tally {
    fn fmt<W: fmt::Write>(&self, f: &mut fmt::Formatter<W>) -> fmt::Result {
        let scripts = self.scripts;
        let lines = self.lines;
        let wrong = self.wrong;
        write!(
            f,
            "{scripts} scripts, {lines} lines, {wrong} scripts with wrong lines"
        )
    }
}

impl fmt::Display for Told {
    fn fmt<W: fmt::Write>(&self, f: &mut fmt::Formatter<W>) -> fmt::Result {
        for (number, times) in NUMBERS.iter().zip(&self.times) {
            writeln!(f, "commands told {number}: {times}")?;
        }
        let offers = self.offers;
        writeln!(f, "solves among those told 0: {offers}")
    }
}
