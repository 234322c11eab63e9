use crate::second::told::Refusal;
use std::io;

/// What was done, and how it ended.
#[derive(Clone, Copy, Default)]
pub(crate) struct Tally {
    edits: u64,
    solves: u64,
    settings: u64,
    /// How many calls each question refused, under its number.
    refused: [u64; 19],
    lists: u64,
    selections: u64,
    longest_list: u64,
    visits: u64,
    links: u64,
    candidates: u64,
    worked: u64,
    documented: u64,
    differences: u64,
}

impl Tally {
    /// Notes how an edit ended.
    pub(crate) fn note_edit(&mut self, refusal: Option<Refusal>) {
        self.edits = self.edits.saturating_add(1);
        if let Some(refusal) = refusal {
            self.note_refusal(refusal);
        }
    }

    /// Notes how a solve ended.
    pub(crate) fn note_solve(&mut self, refusal: Option<Refusal>) {
        self.solves = self.solves.saturating_add(1);
        match refusal {
            None => self.settings = self.settings.saturating_add(1),
            Some(refusal) => self.note_refusal(refusal),
        }
    }

    /// Notes a list of so many selections, and the visits that it says.
    pub(crate) fn note_list(&mut self, selections: u64, visits: u64) {
        self.lists = self.lists.saturating_add(1);
        self.selections = self.selections.saturating_add(selections);
        self.longest_list = self.longest_list.max(selections);
        self.visits = self.visits.saturating_add(visits);
    }

    /// Notes a link of which so many candidates were found.
    pub(crate) fn note_link(&mut self, candidates: usize) {
        self.links = self.links.saturating_add(1);
        self.candidates = self.candidates.saturating_add(candidates as u64);
    }

    /// Notes a figure of the documents, and tells its number.
    pub(crate) fn note_documented(&mut self) -> u64 {
        self.documented = self.documented.saturating_add(1);
        self.documented
    }

    /// Notes a worked port.
    pub(crate) fn note_worked(&mut self) {
        self.worked = self.worked.saturating_add(1);
    }

    /// Notes a difference.
    pub(crate) fn note_difference(&mut self) {
        self.differences = self.differences.saturating_add(1);
    }

    /// Notes a refusal under its number.
    fn note_refusal(&mut self, refusal: Refusal) {
        if let Some(times) = self.refused.get_mut(usize::from(refusal.number)) {
            *times = times.saturating_add(1);
        }
    }

    /// Says what was done.
    pub(crate) fn print(&self, rt: &impl Print) -> io::Result<()> {
        println!(rt;
            "{} worked ports, and {} more figures",
            self.worked, self.documented
        )?;
        println!(rt; "{} edits", self.edits)?;
        self.print_refused(rt, 4, 12)?;
        println!(rt; "{} solves", self.solves)?;
        println!(rt; "   {} with a setting", self.settings)?;
        self.print_refused(rt, 1, 3)?;
        self.print_refused(rt, 13, 18)?;
        println!(rt;
            "{} lists of {} selections in all, at most {} in one, and {} visits",
            self.lists, self.selections, self.longest_list, self.visits
        )?;
        println!(rt; "{} links with {} candidates", self.links, self.candidates)?;
        println!(rt; "{} differences", self.differences)
    }

    /// Says how many calls were refused by each question from the one number to the other.
    fn print_refused(&self, rt: &impl Print, first: usize, last: usize) -> io::Result<()> {
        for number in first..=last {
            let times = self.refused.get(number).copied().unwrap_or(0);
            println!(rt; "   {times} refused with {number}")?;
        }
        Ok(())
    }
}
