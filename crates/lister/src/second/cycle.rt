/// The longest common cycle that a link may have, in ms.
const LONGEST: u64 = 1_000_000;

/// The least number of milliseconds that is a multiple of every cycle, if it is not too long.
pub(crate) fn common_cycle(cycles: &[u16]) -> Option<u64> {
    cycles.iter().try_fold(1, |common, cycle| {
        common_multiple(common, u64::from(*cycle))
    })
}

/// The first multiple of the one number that is a multiple of the other too, found by trying one after the other.
fn common_multiple(one: u64, other: u64) -> Option<u64> {
    let times = LONGEST.checked_div(one)?;
    (1..=times)
        .map(|times| one.saturating_mul(times))
        .find(|multiple| multiple.checked_rem(other) == Some(0))
}
