use crate::both::Both;
use crate::figures::random_figures;
use crate::layers::{Conditions, LAYERS, Layers, rules};
use crate::random::Random;
use crate::report::Report;
use crate::second::selections::Field;
use crate::second::solve::{Listing, all_candidates};
use crate::second::table::Table;
use crate::second::total::MeasureKind;
use crate::solves::{Trial, hold_solves};
use crate::subject::Subject;
use limits::Pair;
use std::alloc::Global;
use std::io;

/// Solves what stands under some limit by some measure, with several allowances.
pub(crate) fn hold_standing(
    report: &mut Report<'_, impl Print>,
    alloc: Global,
    both: &Both,
    random: &mut Random,
    subject: Subject,
) -> io::Result<()> {
    let candidates = all_candidates(alloc, &both.table)?;
    let measures = [MeasureKind::Reserve, MeasureKind::Burst];
    let conditions = Conditions {
        layers: random.pick(&LAYERS).unwrap_or(Layers::Port),
        figures: random_figures(alloc, random, &candidates)?,
        measure: random.pick(&measures).unwrap_or(MeasureKind::Reserve),
    };
    let listing = list_under(report, alloc, &both.table, &candidates, conditions)?;
    let trial = Trial {
        subject,
        plan: &both.plan,
        listing: &listing,
        conditions,
    };
    hold_solves(report, alloc, random, trial)
}

/// Lists the selections of the table under the conditions.
pub(crate) fn list_under(
    report: &mut Report<'_, impl Print>,
    alloc: Global,
    table: &Table,
    candidates: &[Vec<Pair>],
    conditions: Conditions,
) -> io::Result<Listing> {
    let rules = rules(alloc, conditions.layers, conditions.figures)?;
    let field = Field {
        candidates,
        rules: &rules,
        measure: conditions.measure,
    };
    let listing = Listing::of(alloc, table, &field)?;
    report.tally.note_list(listing.selections, listing.visits);
    Ok(listing)
}
