use std::fmt;

/// What the planners are held against each other on: a worked port by its place in the list, a figure of the
/// documents by its number, or a random port or link by the seed that it is made from.
#[derive(Clone, Copy)]
pub(crate) enum Subject {
    Worked(usize),
    Documented(u64),
    Port(u64),
    Link(u64),
    FullPlan,
}

impl fmt::Display for Subject {
    fn fmt<W: fmt::Write>(&self, f: &mut fmt::Formatter<W>) -> fmt::Result {
        match self {
            Subject::Worked(place) => write!(f, "worked port at place {place}"),
            Subject::Documented(number) => write!(f, "documented figure {number}"),
            Subject::Port(number) => write!(f, "port {number}"),
            Subject::Link(number) => write!(f, "link {number}"),
            Subject::FullPlan => write!(f, "the full plan"),
        }
    }
}
