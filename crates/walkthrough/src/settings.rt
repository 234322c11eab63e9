use limits::Pair;
use planner::Row;

/// A setting of links 7 and 9 that was made elsewhere, with a note that says which it is.
#[derive(Clone, Copy)]
pub(crate) struct Setting {
    pub(crate) note: &'static str,
    pub(crate) rows: [Row; 2],
}

/// What a supplier offers, and that with one byte too many or too few.
pub(crate) fn settings() -> [Setting; 3] {
    [
        Setting {
            note: "the supplier's setting",
            rows: [row(7, 4, 100), row(9, 32, 200)],
        },
        Setting {
            note: "with one byte more for link 7",
            rows: [row(7, 4, 101), row(9, 32, 200)],
        },
        Setting {
            note: "with one byte less for link 9",
            rows: [row(7, 4, 100), row(9, 32, 199)],
        },
    ]
}

/// A row of a setting.
fn row(link: u16, gap: u16, mtu: u16) -> Row {
    Row {
        link,
        pair: Pair { gap, mtu },
    }
}
