//! How the list writes a worked port. Macros and no functions, so that the list is one value that the check computes, and not
//! the results of many calls.

/// A candidate of this gap and this MTU.
macro_rules! at {
    ($gap:expr, $mtu:expr) => {
        Some(Pair {
            gap: $gap,
            mtu: $mtu,
        })
    };
}

/// The row of a link with its gap and its MTU.
macro_rules! row {
    ($link:expr, $gap:expr, $mtu:expr) => {
        Row {
            link: $link,
            pair: Pair {
                gap: $gap,
                mtu: $mtu,
            },
        }
    };
}

/// The pairs of a link.
macro_rules! pairs {
    ($calls:expr, $link:expr => $($pair:expr),*) => {
        WorkedPort {
            calls: $calls,
            asked: Asked::Pairs { link: $link },
            told: Told::Pairs([$($pair),*]),
        }
    };
}

/// A solve by reserve at a port whose links may reserve all of its rate, at any gap.
macro_rules! by_reserve {
    ($calls:expr, $rate:expr, $allowance:expr => $told:expr) => {
        WorkedPort {
            calls: $calls,
            asked: Asked::Solve {
                rate: $rate,
                share: $rate,
                floor: 1,
                by: By::Reserve,
                allowance: $allowance,
            },
            told: $told,
        }
    };
}

/// A solve by burst at a port of this rate and this share, at any gap.
macro_rules! by_burst {
    ($calls:expr, $rate:expr, $share:expr, $allowance:expr => $told:expr) => {
        WorkedPort {
            calls: $calls,
            asked: Asked::Solve {
                rate: $rate,
                share: $share,
                floor: 1,
                by: By::Burst,
                allowance: $allowance,
            },
            told: $told,
        }
    };
}

/// A setting that reserves so many units, found in so many visits.
macro_rules! reserves {
    ($units:expr, $visits:expr, $($row:expr),*) => {
        Told::ByReserve {
            solved: Solved {
                total: $units,
                visits: $visits,
            },
            rows: [$($row),*],
        }
    };
}

/// A setting with so many bytes in its frames, which reserves so many units, found in so many visits.
macro_rules! bursts {
    ($bytes:expr, $units:expr, $visits:expr, $($row:expr),*) => {
        Told::ByBurst {
            solved: Solved {
                total: BurstTotal {
                    bytes: $bytes,
                    units: $units,
                },
                visits: $visits,
            },
            rows: [$($row),*],
        }
    };
}

/// A refusal.
macro_rules! refused {
    ($number:expr, $detail:expr) => {
        Told::Refused {
            number: $number,
            detail: $detail,
        }
    };
}

/// One more flow of one byte every 1,000 ms.
macro_rules! one_more_flow {
    ($calls:expr => $told:expr) => {
        WorkedPort {
            calls: $calls,
            asked: Asked::Edit(Call::AddFlow {
                link: 1,
                flow: 2,
                payload: 1,
                cycle: 1000,
            }),
            told: $told,
        }
    };
}

pub(crate) use at;
pub(crate) use bursts;
pub(crate) use by_burst;
pub(crate) use by_reserve;
pub(crate) use one_more_flow;
pub(crate) use pairs;
pub(crate) use refused;
pub(crate) use reserves;
pub(crate) use row;
