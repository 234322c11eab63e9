use crate::second::candidates::candidates;
use crate::second::selections::{Field, named, pairs_of_number};
use crate::second::table::Table;
use crate::second::told::{Refusal, refused};
use crate::second::total::Total;
use crate::second::visits::visits;
use limits::Pair;
use planner::Row;
use std::alloc::{AllocError, Global};
use std::io;

/// What a solve tells, when it is not refused.
#[derive(Clone, Copy, Debug, PartialEq, Eq)]
pub(crate) struct Setting {
    pub(crate) total: Total,
    pub(crate) visits: u64,
}

/// All that solves of a table tell under some rules, whatever their allowance and their tables.
#[derive(Drop)]
pub(crate) struct Listing {
    links: usize,
    without_flow: Option<u16>,
    without_candidate: Option<u16>,
    pub(crate) selections: u64,
    pub(crate) visits: u64,
    named: Option<Total>,
    /// The rows of the named setting; none where there is no such setting.
    pub(crate) rows: Vec<Row>,
}

/// What a solve is handed beside the plan, the limit and the measure.
#[derive(Clone, Copy, Debug)]
pub(crate) struct Asked {
    pub(crate) allowance: u32,
    pub(crate) answer_rows: usize,
    pub(crate) work_rows: usize,
}

impl Listing {
    /// Lists all selections of the table, from the candidates of its links.
    pub(crate) fn of(
        alloc: Global,
        table: &Table,
        field: &Field<'_>,
    ) -> Result<Listing, AllocError> {
        let mut listing = Listing {
            links: table.links.len(),
            without_flow: table.first_without_flow(),
            without_candidate: first_without_candidate(&table.links, field.candidates),
            selections: 0,
            visits: 0,
            named: None,
            rows: Vec::new(alloc),
        };
        if listing.without_flow.is_none() && listing.without_candidate.is_none() {
            listing.fill(alloc, &table.links, field)?;
        }
        Ok(listing)
    }

    /// Fills in the visits and the named setting.
    fn fill(&mut self, alloc: Global, links: &[u16], field: &Field<'_>) -> Result<(), AllocError> {
        let listed = field.list(alloc)?;
        self.selections = listed.len() as u64;
        self.visits = visits(alloc, field, &listed)?;
        let Some(number) = named(&listed) else {
            return Ok(());
        };
        self.named = listed.get(number).map(|selection| selection.total);
        let mut pairs = Vec::new(alloc);
        pairs_of_number(field.candidates, number, &mut pairs)?;
        for (link, pair) in links.iter().zip(&pairs) {
            self.rows.push(Row {
                link: *link,
                pair: *pair,
            })?;
        }
        Ok(())
    }

    /// What a solve tells.
    pub(crate) fn told(&self, asked: Asked) -> Result<Setting, Refusal> {
        if let Some(link) = self.without_flow {
            return Err(refused(13, u32::from(link)));
        }
        if asked.answer_rows < self.links {
            return Err(refused(14, 0));
        }
        if asked.work_rows <= self.links {
            return Err(refused(15, 0));
        }
        if let Some(link) = self.without_candidate {
            return Err(refused(16, u32::from(link)));
        }
        if self.visits > u64::from(asked.allowance) {
            return Err(refused(17, 0));
        }
        let Some(total) = self.named else {
            return Err(refused(18, 0));
        };
        Ok(Setting {
            total,
            visits: self.visits,
        })
    }
}

/// The candidates of every link in the order of the links.
pub(crate) fn all_candidates(alloc: Global, table: &Table) -> io::Result<Vec<Vec<Pair>>> {
    let mut all = Vec::new(alloc);
    for link in &table.links {
        all.push(candidates(alloc, &table.flows_of(*link)?)?)?;
    }
    Ok(all)
}

/// The first link that has no candidate.
fn first_without_candidate(links: &[u16], candidates: &[Vec<Pair>]) -> Option<u16> {
    links
        .iter()
        .zip(candidates)
        .find(|(_, pairs)| pairs.is_empty())
        .map(|(link, _)| *link)
}
