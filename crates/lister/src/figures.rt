use crate::random::Random;
use crate::second::port::Figures;
use crate::second::rules::{total_bytes, total_units};
use limits::Pair;
use std::alloc::{AllocError, Global};

/// The gaps, and numbers beside them that are none.
const FLOORS: [u32; 12] = [1, 1, 1, 2, 4, 8, 16, 32, 64, 128, 3, 0];

/// Bounds of rates and shares, in kbit/s. The last is above what a port may have.
const BOUNDS: [u64; 8] = [1, 100, 1000, 3000, 10_000, 30_000, 100_000, 2_000_000];

/// Figures of a port: ample ones, any, or ones that a selection just fits or just misses.
pub(crate) fn random_figures(
    alloc: Global,
    random: &mut Random,
    candidates: &[Vec<Pair>],
) -> Result<Figures, AllocError> {
    match random.below(10) {
        0 | 1 => Ok(ample()),
        2 | 3 => Ok(any(random)),
        _ => at_edge(alloc, random, candidates),
    }
}

/// Figures that hardly bind.
fn ample() -> Figures {
    Figures {
        rate: 1_000_000,
        share: 1_000_000,
        floor: 1,
    }
}

/// Any figures, of any size.
fn any(random: &mut Random) -> Figures {
    let rate = any_size(random);
    let share = any_size(random);
    Figures {
        rate,
        share: if random.once_in(10) {
            share
        } else {
            share.min(rate)
        },
        floor: random.pick(&FLOORS).unwrap_or(1),
    }
}

/// A number below one of the bounds.
fn any_size(random: &mut Random) -> u32 {
    let bound = random.pick(&BOUNDS).unwrap_or(1);
    u32::try_from(random.below(bound)).unwrap_or(u32::MAX)
}

/// Figures of which some are just enough for a selection of candidates, some just too small, and some ample.
fn at_edge(
    alloc: Global,
    random: &mut Random,
    candidates: &[Vec<Pair>],
) -> Result<Figures, AllocError> {
    let pairs = selection_at_edge(alloc, random, candidates)?;
    let bytes = total_bytes(&pairs);
    let units = total_units(&pairs);
    let least = pairs.iter().map(|pair| pair.gap).min();
    let rate = near(random, bytes.saturating_mul(400).div_ceil(23));
    let share = near(random, units.div_ceil(16)).min(rate);
    let floor = if random.once_in(2) {
        u32::from(least.unwrap_or(1))
    } else {
        random.pick(&FLOORS).unwrap_or(1)
    };
    Ok(Figures { rate, share, floor })
}

/// A random selection of candidates: the first of 31 whose bytes are a multiple of 23, or else the last of them. Only such
/// bytes can fill the jitter exactly.
fn selection_at_edge(
    alloc: Global,
    random: &mut Random,
    candidates: &[Vec<Pair>],
) -> Result<Vec<Pair>, AllocError> {
    let mut pairs = random_selection(alloc, random, candidates)?;
    for _ in 0..30 {
        if total_bytes(&pairs) % 23 == 0 {
            break;
        }
        pairs = random_selection(alloc, random, candidates)?;
    }
    Ok(pairs)
}

/// A random candidate of every link that has one.
fn random_selection(
    alloc: Global,
    random: &mut Random,
    candidates: &[Vec<Pair>],
) -> Result<Vec<Pair>, AllocError> {
    let mut pairs = Vec::new(alloc);
    for link in candidates {
        if let Some(pair) = random.pick(link) {
            pairs.push(pair)?;
        }
    }
    Ok(pairs)
}

/// The number, one less, a few more, or ample.
fn near(random: &mut Random, number: u64) -> u32 {
    let near = match random.below(8) {
        0..=2 => number,
        3 => number.saturating_sub(1),
        4 | 5 => number.saturating_add(random.below(200)),
        _ => 1_000_000,
    };
    near.clamp(1, 1_000_000) as u32
}
