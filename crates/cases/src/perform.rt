use crate::desk::Desk;
use crate::edits::{add_flow, add_link, add_own_flow, amend, withdraw};
use crate::fault::Fault;
use crate::limit_calls::{tell_breach, tell_pair, tell_total};
use crate::queries::{
    tell_candidates, tell_counts, tell_cycle, tell_first_without_flow, tell_flow, tell_pairs,
    tell_served, tell_standing,
};
use crate::scripts::{add_bytes, tell_lines};
use crate::settings::{check_at_port, check_open};
use crate::solves::{make_port, make_tables, solve_by_burst, solve_by_reserve};
use crate::tables::Tables;
use crate::told::Told;
use crate::words::Words;
use std::alloc::{AllocError, Global};

/// Performs the call of a line, and gives what it tells.
pub(crate) fn perform(
    alloc: Global,
    desk: &mut Desk,
    tables: &mut Tables,
    call: &str,
) -> Result<String, AllocError> {
    let mut told = Told::new(alloc);
    let mut words = Words::of(call);
    let name = words.next().unwrap_or("");
    let performed = perform_words(alloc, desk, tables, name, &mut words, &mut told);
    let Told {
        text,
        words: refusal,
    } = told;
    if !refusal.is_empty() {
        desk.refusal = refusal;
    }
    match performed {
        Ok(()) if words.next().is_none() => Ok(text),
        Ok(()) => "a call with too many words".to_string(alloc),
        Err(Fault::Memory) => Err(AllocError),
        Err(Fault::Unreadable) => "a call that cannot be read".to_string(alloc),
    }
}

/// Performs the call of that name.
fn perform_words(
    alloc: Global,
    desk: &mut Desk,
    tables: &mut Tables,
    name: &str,
    words: &mut Words<'_>,
    told: &mut Told,
) -> Result<(), Fault> {
    match name {
        "words" => Ok(told.text.push_str(desk.refusal.as_str())?),
        "port" => make_port(desk, words, told),
        "tables" => make_tables(alloc, desk, words, told),
        "reserve" => solve_by_reserve(alloc, desk, &mut tables.by_reserve, words, told),
        "burst" => solve_by_burst(alloc, desk, &mut tables.by_burst, words, told),
        "check" => check_at_port(alloc, desk, words, told),
        "check_open" => check_open(alloc, desk, words, told),
        "bytes" => add_bytes(alloc, desk, words, told),
        "lines" => tell_lines(alloc, desk, told),
        "pair" => tell_pair(words, told),
        "breach" => tell_breach(alloc, desk, words, told),
        "total" => tell_total(alloc, words, told),
        _ => perform_on_plan(desk, name, words, told),
    }
}

/// Performs the call of a plan that has that name.
fn perform_on_plan(
    desk: &mut Desk,
    name: &str,
    words: &mut Words<'_>,
    told: &mut Told,
) -> Result<(), Fault> {
    match name {
        "link" => add_link(desk, words, told),
        "flow" => add_flow(desk, words, told),
        "own_flow" => add_own_flow(desk, words, told),
        "amend" => amend(desk, words, told),
        "withdraw" => withdraw(desk, words, told),
        "stands" => tell_standing(desk, told),
        "counts" => tell_counts(desk, told),
        "flow_at" => tell_flow(desk, words, told),
        "cycle" => tell_cycle(desk, words, told),
        "pairs" => tell_pairs(desk, words, told),
        "candidates" => tell_candidates(desk, words, told),
        "first_without_flow" => tell_first_without_flow(desk, told),
        "served" => tell_served(desk, words, told),
        _ => Err(Fault::Unreadable),
    }
}
