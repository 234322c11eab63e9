use crate::desk::Desk;
use crate::fault::Fault;
use crate::told::{Told, write_test};
use crate::words::{Words, pair_of};
use limits::{Burst, Floor, Jitter, Open, Pair, Reserve, Share, breach_of_pairs, total_of_pairs};
use std::alloc::Global;

/// `pair PAIR`: is its gap lawful, its MTU, and both, and how many bytes has a frame?
pub(crate) fn tell_pair(words: &mut Words<'_>, told: &mut Told) -> Result<(), Fault> {
    let pair = pair_of(words.next().unwrap_or(""))?;
    write_test(told, pair.has_lawful_gap())?;
    told.text.push_str(" ")?;
    write_test(told, pair.has_lawful_mtu())?;
    told.text.push_str(" ")?;
    write_test(told, pair.is_lawful())?;
    write!(told.text, " {}", pair.frame_bytes())?;
    Ok(())
}

/// `breach open PAIR ..`, `breach floor GAP PAIR ..`, `breach share RATE PAIR ..`, `breach jitter RATE PAIR ..` and,
/// under the limit of the port, `breach port PAIR ..`
pub(crate) fn tell_breach(
    alloc: Global,
    desk: &Desk,
    words: &mut Words<'_>,
    told: &mut Told,
) -> Result<(), Fault> {
    let breach = match words.next().unwrap_or("") {
        "open" => breach_of_pairs(&Open, &pairs_of(alloc, words)?),
        "floor" => breach_of_pairs(&Floor { gap: words.long()? }, &pairs_of(alloc, words)?),
        "share" => breach_of_pairs(
            &Share {
                rate: words.long()?,
            },
            &pairs_of(alloc, words)?,
        ),
        "jitter" => breach_of_pairs(
            &Jitter {
                rate: words.long()?,
            },
            &pairs_of(alloc, words)?,
        ),
        "port" => breach_of_pairs(&desk.port()?.limit(), &pairs_of(alloc, words)?),
        _ => return Err(Fault::Unreadable),
    };
    match breach {
        Some(breach) => write!(told.text, "{breach}")?,
        None => told.text.push_str("none")?,
    }
    Ok(())
}

/// `total PAIR ..`: the total by reserve, and that by burst.
pub(crate) fn tell_total(
    alloc: Global,
    words: &mut Words<'_>,
    told: &mut Told,
) -> Result<(), Fault> {
    let pairs = pairs_of(alloc, words)?;
    match (
        total_of_pairs(&Reserve, &pairs),
        total_of_pairs(&Burst, &pairs),
    ) {
        (Some(reserve), Some(burst)) => {
            write!(told.text, "{reserve} {} {}", burst.bytes, burst.units)?;
        }
        (None, None) => told.text.push_str("none")?,
        _ => told.text.push_str("none by one measure alone")?,
    }
    Ok(())
}

/// The pairs that the words left are, each alone as in `1:5` or so many times as in `64*1:5`.
fn pairs_of(alloc: Global, words: &mut Words<'_>) -> Result<Vec<Pair>, Fault> {
    let mut pairs = Vec::new(alloc);
    for _ in 0..u16::MAX {
        let Some(word) = words.next() else {
            break;
        };
        let (times, pair) = word.split_once("*").unwrap_or(("1", word));
        let times: u16 = times.parse()?;
        let pair = pair_of(pair)?;
        for _ in 0..times {
            pairs.push(pair)?;
        }
    }
    Ok(pairs)
}
