use crate::desk::Desk;
use crate::edits::tell_replayed;
use crate::fault::Fault;
use crate::told::{Told, write_flow, write_places, write_plan_answer, write_test};
use crate::words::{Words, pair_of};
use limits::{GAP_COUNT, Pair};

/// What stands in the place that is lent for pairs.
const MARK: Option<Pair> = Some(Pair { gap: 9, mtu: 9 });

/// `stands`: the links in plan order, and the flows in rising name. A replay of all edits has to leave the same.
pub(crate) fn tell_standing(desk: &Desk, told: &mut Told) -> Result<(), Fault> {
    told.text.push_str("links")?;
    for link in desk.plan.links() {
        write!(told.text, " {link}")?;
    }
    told.text.push_str(" flows")?;
    for flow in desk.plan.flows() {
        write_flow(told, flow)?;
    }
    tell_replayed(desk, told)
}

/// `counts`: how many links and how many flows stand.
pub(crate) fn tell_counts(desk: &Desk, told: &mut Told) -> Result<(), Fault> {
    write!(
        told.text,
        "{} {}",
        desk.plan.links().len(),
        desk.plan.flows().len()
    )?;
    Ok(())
}

/// `flow_at PLACE`: the flow at a place of those in rising name, from 1.
pub(crate) fn tell_flow(desk: &Desk, words: &mut Words<'_>, told: &mut Told) -> Result<(), Fault> {
    let place = usize::from(words.short()?).saturating_sub(1);
    let flow = desk.plan.flows().get(place).ok_or(Fault::Unreadable)?;
    write_flow(told, flow)?;
    Ok(())
}

/// `cycle LINK`: the common cycle.
pub(crate) fn tell_cycle(desk: &Desk, words: &mut Words<'_>, told: &mut Told) -> Result<(), Fault> {
    match desk.plan.common_cycle(words.short()?) {
        Ok(cycle) => write!(told.text, "0 {cycle}")?,
        Err(fault) => told.write_refusal(fault.number(), fault.detail(), &fault)?,
    }
    Ok(())
}

/// `pairs LINK`: the pair at each gap. The plan and the issued plan have to tell the same, and to leave the place at a
/// refusal.
pub(crate) fn tell_pairs(desk: &Desk, words: &mut Words<'_>, told: &mut Told) -> Result<(), Fault> {
    let link = words.short()?;
    let mut place = [MARK; GAP_COUNT];
    let answer = desk.plan.pairs(link, &mut place);
    write_plan_answer(told, answer)?;
    if answer.is_ok() {
        write_places(told, &place)?;
    } else if place != [MARK; GAP_COUNT] {
        told.text.push_str(" and something in the place")?;
    }
    let mut issued_place = [MARK; GAP_COUNT];
    if desk.issued().pairs(link, &mut issued_place) != answer || issued_place != place {
        told.text
            .push_str(" and something else where the plan is issued")?;
    }
    Ok(())
}

/// `candidates LINK`: the pair at each gap, without a question.
pub(crate) fn tell_candidates(
    desk: &Desk,
    words: &mut Words<'_>,
    told: &mut Told,
) -> Result<(), Fault> {
    write_places(told, &desk.plan.candidates(words.short()?))?;
    Ok(())
}

/// `first_without_flow`
pub(crate) fn tell_first_without_flow(desk: &Desk, told: &mut Told) -> Result<(), Fault> {
    match desk.plan.first_without_flow() {
        Some(link) => write!(told.text, "{link}")?,
        None => told.text.push_str("none")?,
    }
    Ok(())
}

/// `served LINK PAIR`
pub(crate) fn tell_served(
    desk: &Desk,
    words: &mut Words<'_>,
    told: &mut Told,
) -> Result<(), Fault> {
    let link = words.short()?;
    let pair = pair_of(words.next().unwrap_or(""))?;
    write_test(told, desk.plan.is_served(link, pair))?;
    Ok(())
}
