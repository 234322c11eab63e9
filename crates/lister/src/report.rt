use crate::subject::Subject;
use crate::tally::Tally;
use std::{fmt, io};

/// What was done is noted here, and differences are printed.
#[derive(Drop)]
pub(crate) struct Report<'a, P> {
    rt: &'a P,
    pub(crate) tally: Tally,
}

impl<'a, P: Print> Report<'a, P> {
    /// A report of nothing yet.
    pub(crate) fn new(rt: &'a P) -> Report<'a, P> {
        Report {
            rt,
            tally: Tally::default(),
        }
    }

    /// Notes a difference, and prints it.
    pub(crate) fn note_difference(
        &mut self,
        subject: Subject,
        words: impl fmt::Display + Drop,
    ) -> io::Result<()> {
        self.tally.note_difference();
        println!(self.rt; "{subject}, {words}")
    }
}
