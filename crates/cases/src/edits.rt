use crate::desk::Desk;
use crate::fault::Fault;
use crate::told::{Told, write_plan_answer};
use crate::words::Words;
use plan::Call;

/// `link NAME`, or `link FIRST-LAST` for each name between.
pub(crate) fn add_link(
    desk: &mut Desk,
    words: &mut Words<'_>,
    told: &mut Told,
) -> Result<(), Fault> {
    let (first, last) = words.names()?;
    let mut answer = Ok(());
    for name in first..=last {
        answer = answer.and(desk.edit(Call::AddLink { name })?);
    }
    write_plan_answer(told, answer)?;
    tell_replayed(desk, told)
}

/// `flow LINK NAME PAYLOAD CYCLE`, or `flow LINK FIRST-LAST PAYLOAD CYCLE` for each name between.
pub(crate) fn add_flow(
    desk: &mut Desk,
    words: &mut Words<'_>,
    told: &mut Told,
) -> Result<(), Fault> {
    let link = words.short()?;
    let (first, last) = words.names()?;
    let payload = words.short()?;
    let cycle = words.short()?;
    let mut answer = Ok(());
    for flow in first..=last {
        answer = answer.and(desk.edit(Call::AddFlow {
            link,
            flow,
            payload,
            cycle,
        })?);
    }
    write_plan_answer(told, answer)?;
    tell_replayed(desk, told)
}

/// `own_flow FIRST-LAST PAYLOAD CYCLE`: adds to each link between a flow of the same name.
pub(crate) fn add_own_flow(
    desk: &mut Desk,
    words: &mut Words<'_>,
    told: &mut Told,
) -> Result<(), Fault> {
    let (first, last) = words.names()?;
    let payload = words.short()?;
    let cycle = words.short()?;
    let mut answer = Ok(());
    for name in first..=last {
        answer = answer.and(desk.edit(Call::AddFlow {
            link: name,
            flow: name,
            payload,
            cycle,
        })?);
    }
    write_plan_answer(told, answer)?;
    tell_replayed(desk, told)
}

/// `amend NAME PAYLOAD CYCLE`
pub(crate) fn amend(desk: &mut Desk, words: &mut Words<'_>, told: &mut Told) -> Result<(), Fault> {
    let answer = desk.edit(Call::Amend {
        flow: words.short()?,
        payload: words.short()?,
        cycle: words.short()?,
    })?;
    write_plan_answer(told, answer)?;
    tell_replayed(desk, told)
}

/// `withdraw NAME`
pub(crate) fn withdraw(
    desk: &mut Desk,
    words: &mut Words<'_>,
    told: &mut Told,
) -> Result<(), Fault> {
    let answer = desk.edit(Call::Withdraw {
        flow: words.short()?,
    })?;
    write_plan_answer(told, answer)?;
    tell_replayed(desk, told)
}

/// Tells where something else stands after a replay of all edits.
pub(crate) fn tell_replayed(desk: &Desk, told: &mut Told) -> Result<(), Fault> {
    if !desk.is_replayed() {
        told.text
            .push_str(" and something else where all edits are replayed")?;
    }
    Ok(())
}
