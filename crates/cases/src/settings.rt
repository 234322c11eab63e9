use crate::desk::Desk;
use crate::fault::Fault;
use crate::told::Told;
use crate::words::{Words, push_rows};
use limits::Open;
use planner::{Row, SettingFault, check_port_setting, check_setting};
use std::alloc::Global;

/// `check ROW ..`: at the port. The issued plan has to tell the same, and so has the check under the limit of the port.
pub(crate) fn check_at_port(
    alloc: Global,
    desk: &Desk,
    words: &mut Words<'_>,
    told: &mut Told,
) -> Result<(), Fault> {
    let port = desk.port()?;
    let rows = rows_of(alloc, words)?;
    let answer = check_port_setting(&desk.plan, port, &rows);
    write_answer(told, answer)?;
    if desk.issued().check_port_setting(port, &rows) != answer {
        told.text
            .push_str(" and something else where the plan is issued")?;
    }
    if check_setting(&desk.plan, &port.limit(), &rows) != answer {
        told.text
            .push_str(" and something else under the limit of the port")?;
    }
    Ok(())
}

/// `check_open ROW ..`: under no limit but the rules of a link. The issued plan has to tell the same.
pub(crate) fn check_open(
    alloc: Global,
    desk: &Desk,
    words: &mut Words<'_>,
    told: &mut Told,
) -> Result<(), Fault> {
    let rows = rows_of(alloc, words)?;
    let answer = check_setting(&desk.plan, &Open, &rows);
    write_answer(told, answer)?;
    if desk.issued().check_setting(&Open, &rows) != answer {
        told.text
            .push_str(" and something else where the plan is issued")?;
    }
    Ok(())
}

/// What a check tells.
fn write_answer(told: &mut Told, answer: Result<(), SettingFault>) -> Result<(), Fault> {
    match answer {
        Ok(()) => told.text.push_str("0")?,
        Err(fault) => told.write_refusal(fault.number(), fault.detail(), &fault)?,
    }
    Ok(())
}

/// The rows that the words left are.
fn rows_of(alloc: Global, words: &mut Words<'_>) -> Result<Vec<Row>, Fault> {
    let mut rows = Vec::new(alloc);
    for _ in 0..u16::MAX {
        let Some(word) = words.next() else {
            break;
        };
        push_rows(&mut rows, word)?;
    }
    Ok(rows)
}
