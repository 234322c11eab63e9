use crate::second::rules::{Rule, are_within};
use crate::second::total::{MeasureKind, Total};
use limits::Pair;
use std::alloc::{AllocError, Global};

/// What selections are listed of: the candidates of each link, the rules of the port, and the measure.
#[derive(Clone, Copy)]
pub(crate) struct Field<'a> {
    pub(crate) candidates: &'a [Vec<Pair>],
    pub(crate) rules: &'a [Rule],
    pub(crate) measure: MeasureKind,
}

/// A complete selection in the list: whether it is within the limit, and what it totals.
#[derive(Clone, Copy)]
pub(crate) struct Listed {
    pub(crate) within: bool,
    pub(crate) total: Total,
}

impl Field<'_> {
    /// How many lists of candidates there are, one for each of these links.
    pub(crate) fn count(links: &[Vec<Pair>]) -> usize {
        links
            .iter()
            .fold(1, |count, pairs| count.saturating_mul(pairs.len()))
    }

    /// Every complete selection in order: the earlier it comes, the smaller is the gap at the first link where two differ.
    pub(crate) fn list(&self, alloc: Global) -> Result<Vec<Listed>, AllocError> {
        let mut listed = Vec::new(alloc);
        let mut pairs = Vec::new(alloc);
        for number in 0..Field::count(self.candidates) {
            pairs_of_number(self.candidates, number, &mut pairs)?;
            listed.push(self.look_at(&pairs))?;
        }
        Ok(listed)
    }

    /// What is listed of these pairs.
    pub(crate) fn look_at(&self, pairs: &[Pair]) -> Listed {
        Listed {
            within: are_within(self.rules, pairs),
            total: self.measure.total_of(pairs),
        }
    }
}

/// Writes the list of candidates that has the number, one candidate for each of these links: the numbers, counted from 0, go
/// by the order of the lists, and so the last link has the last digit.
pub(crate) fn pairs_of_number(
    links: &[Vec<Pair>],
    number: usize,
    pairs: &mut Vec<Pair>,
) -> Result<(), AllocError> {
    pairs.clear();
    let mut rest = number;
    for link in links.iter().rev() {
        let digit = rest.checked_rem(link.len()).unwrap_or(0);
        rest = rest.checked_div(link.len()).unwrap_or(0);
        if let Some(pair) = link.get(digit) {
            pairs.push(*pair)?;
        }
    }
    pairs.reverse();
    Ok(())
}

/// The number of the named setting: of the selections within, the first that totals no more than any other.
pub(crate) fn named(listed: &[Listed]) -> Option<usize> {
    let mut best: Option<(usize, Total)> = None;
    for (number, selection) in listed.iter().enumerate() {
        let beaten = best.is_some_and(|(_, total)| total.is_no_more(selection.total));
        if selection.within && !beaten {
            best = Some((number, selection.total));
        }
    }
    best.map(|(number, _)| number)
}
