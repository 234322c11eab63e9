use crate::second::selections::{Field, Listed, pairs_of_number};
use crate::second::total::Total;
use std::alloc::{AllocError, Global};

/// How many partial selections are visited. One is visited exactly when its parent, the list without the last pair, is within
/// the limit, and no complete selection within that comes before it totals no more than the parent.
pub(crate) fn visits(
    alloc: Global,
    field: &Field<'_>,
    listed: &[Listed],
) -> Result<u64, AllocError> {
    let least = least_before(alloc, listed)?;
    let mut visits = 0_u64;
    for links in 0..field.candidates.len() {
        visits = visits.saturating_add(visits_at(alloc, field, &least, links)?);
    }
    Ok(visits)
}

/// The least total of a selection within among the first 0, 1, 2 .. of the list.
fn least_before(alloc: Global, listed: &[Listed]) -> Result<Vec<Option<Total>>, AllocError> {
    let mut least = Vec::new(alloc);
    let mut least_total: Option<Total> = None;
    least.push(least_total)?;
    for selection in listed {
        if selection.within && !least_total.is_some_and(|total| total.is_no_more(selection.total)) {
            least_total = Some(selection.total);
        }
        least.push(least_total)?;
    }
    Ok(least)
}

/// How many partial selections are visited whose parents have a pair for so many links.
fn visits_at(
    alloc: Global,
    field: &Field<'_>,
    least: &[Option<Total>],
    links: usize,
) -> Result<u64, AllocError> {
    let Some((before, [own, behind @ ..])) = field.candidates.split_at_checked(links) else {
        return Ok(0);
    };
    let mut visits = 0_u64;
    let mut pairs = Vec::new(alloc);
    for number in 0..Field::count(before) {
        pairs_of_number(before, number, &mut pairs)?;
        let parent = field.look_at(&pairs);
        if parent.within {
            let first = number.saturating_mul(own.len());
            let visited = (first..first.saturating_add(own.len()))
                .filter(|partial| !is_beaten(least, *partial, Field::count(behind), parent.total))
                .count();
            visits = visits.saturating_add(visited as u64);
        }
    }
    Ok(visits)
}

/// Does a complete selection within that comes before the partial one total no more than its parent? So many complete ones go
/// on from each partial selection: they are next to one another in the list, and those that come before the partial one are
/// all that stand ahead of them.
fn is_beaten(least: &[Option<Total>], partial: usize, go_on: usize, parent: Total) -> bool {
    match least.get(partial.saturating_mul(go_on)) {
        Some(Some(total)) => total.is_no_more(parent),
        _ => false,
    }
}
