//! What an accepted solve tells, and its rows.
use crate::line::Line;
use crate::standing::{GAPS, Port, Standing};
use crate::wrong::Wrong;

const MTU_MAX: u32 = 1471;

/// The bytes of a frame besides those of a message.
const FRAME_REST: u64 = 67;

/// What the rows of an accepted solve reserve, and the bytes of their frames.
#[derive(Clone, Copy, PartialEq, Eq)]
pub(crate) struct Totals {
    pub(crate) units: u64,
    pub(crate) bytes: u64,
}

/// Judges the rows of an accepted solve: one for each link in plan order, with the totals that are told, within the limit
/// of the port.
pub(crate) fn judge_rows(rows: &[Line], standing: &Standing, told: Totals) -> Result<(), Wrong> {
    let Some(port) = standing.port else {
        return Err(Wrong::Offer);
    };
    let mut sum = Totals { units: 0, bytes: 0 };
    for (row, link) in rows.iter().zip(&standing.links) {
        let [name, gap, mtu] = row.as_slice() else {
            return Err(Wrong::LineForm);
        };
        if *name != u32::from(*link) {
            return Err(Wrong::RowName);
        }
        sum = with_pair(sum, *gap, *mtu, port)?;
    }
    if sum != told {
        return Err(Wrong::Totals);
    }
    judge_limit(told, port)
}

/// The totals with one more pair.
fn with_pair(sum: Totals, gap: u32, mtu: u32, port: Port) -> Result<Totals, Wrong> {
    if !GAPS.contains(&gap) || gap < port.floor {
        return Err(Wrong::RowGap);
    }
    if !(1..=MTU_MAX).contains(&mtu) {
        return Err(Wrong::RowMtu);
    }
    let bytes = u64::from(mtu) + FRAME_REST;
    let units = (bytes * 128)
        .checked_div(u64::from(gap))
        .ok_or(Wrong::RowGap)?;
    Ok(Totals {
        units: sum.units.saturating_add(units),
        bytes: sum.bytes.saturating_add(bytes),
    })
}

/// Judges the totals by the share and the rate of the port.
fn judge_limit(told: Totals, port: Port) -> Result<(), Wrong> {
    let in_share = told.units <= 16 * u64::from(port.share);
    let in_time = told.bytes.saturating_mul(400) <= 23 * u64::from(port.rate);
    if in_share && in_time {
        Ok(())
    } else {
        Err(Wrong::NotWithin)
    }
}
