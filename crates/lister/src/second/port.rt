use crate::second::told::{Refusal, first_no};

/// The figures that a limit is made of: those of a port.
#[derive(Clone, Copy, Debug)]
pub(crate) struct Figures {
    pub(crate) rate: u32,
    pub(crate) share: u32,
    pub(crate) floor: u32,
}

/// The first question of a port's figures that is answered no.
pub(crate) fn port_refusal(figures: Figures) -> Option<Refusal> {
    let Figures { rate, share, floor } = figures;
    first_no(&[
        (1, 0 < rate && rate <= 1_000_000),
        (2, 0 < share && share <= rate),
        (3, matches!(floor, 1 | 2 | 4 | 8 | 16 | 32 | 64 | 128)),
    ])
}
