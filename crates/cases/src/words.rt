use crate::fault::Fault;
use limits::Pair;
use planner::Row;
use std::str::SplitWhitespace;

/// The words of a call that are left to be read.
#[derive(Drop)]
pub(crate) struct Words<'a> {
    rest: SplitWhitespace<'a>,
}

impl<'a> Words<'a> {
    /// The words of a text.
    pub(crate) fn of(text: &'a str) -> Words<'a> {
        Words {
            rest: text.split_whitespace(),
        }
    }

    /// The next word, if there is one.
    pub(crate) fn next(&mut self) -> Option<&'a str> {
        self.rest.next()
    }

    /// The next word as a number of 16 bits.
    pub(crate) fn short(&mut self) -> Result<u16, Fault> {
        short(self.next())
    }

    /// The next word as a number of 32 bits.
    pub(crate) fn long(&mut self) -> Result<u32, Fault> {
        let word = self.next().ok_or(Fault::Unreadable)?;
        Ok(word.parse()?)
    }

    /// The next word as one name or as the first and the last of several.
    pub(crate) fn names(&mut self) -> Result<(u16, u16), Fault> {
        names_of(self.next().ok_or(Fault::Unreadable)?)
    }
}

/// A pair as in `16:67`.
pub(crate) fn pair_of(word: &str) -> Result<Pair, Fault> {
    let (gap, mtu) = word.split_once(":").ok_or(Fault::Unreadable)?;
    Ok(Pair {
        gap: short(Some(gap))?,
        mtu: short(Some(mtu))?,
    })
}

/// The rows of one link or of several, each with the pair, as in `1:16:67` or `0-63:128:1`.
pub(crate) fn push_rows(rows: &mut Vec<Row>, word: &str) -> Result<(), Fault> {
    let (names, pair) = word.split_once(":").ok_or(Fault::Unreadable)?;
    let (first, last) = names_of(names)?;
    let pair = pair_of(pair)?;
    for link in first..=last {
        rows.push(Row { link, pair })?;
    }
    Ok(())
}

/// One name, or the first and the last of several, as in `0-62`.
fn names_of(word: &str) -> Result<(u16, u16), Fault> {
    let (first, last) = word.split_once("-").unwrap_or((word, word));
    Ok((short(Some(first))?, short(Some(last))?))
}

/// A number of 16 bits.
fn short(word: Option<&str>) -> Result<u16, Fault> {
    let word = word.ok_or(Fault::Unreadable)?;
    Ok(word.parse()?)
}
