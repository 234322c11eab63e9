ghost use Rattle.std.specs.Prelude.{◌≡◌};
ghost use Rattle.worked.specs.WorkedPorts.{ToldAsWorked, worked_ports};

use crate::entries::{
    at, bursts, by_burst, by_reserve, one_more_flow, pairs, refused, reserves, row,
};
use crate::plans::{
    EVERY_5, EVERY_6, EVERY_127, EVERY_128, EVERY_999, EVERY_1001, ONE_LINK, TWO_LINKS,
};
use crate::worked_port::{Asked, By, Told, WorkedPort};
use limits::{BurstTotal, Pair};
use plan::Call;
use planner::{Row, Solved};

/// How many worked ports there are.
pub const WORKED_PORT_COUNT: usize = 23;

/// What is left of the answer table as it was.
const BLANK: Row = row!(0, 0, 0);

/// The worked ports.
pub fn worked_ports() -> [WorkedPort; WORKED_PORT_COUNT]
    ensures list { result ≡ worked_ports }
    ensures told { ToldAsWorked result }
{
    [
        pairs!(ONE_LINK, 1 => at!(1, 17), at!(2, 40), at!(4, 100), None, None, None, None, None),
        pairs!(TWO_LINKS, 1 => at!(1, 5), at!(2, 9), at!(4, 17), at!(8, 34), at!(16, 67), at!(32, 200), None, None),
        pairs!(TWO_LINKS, 2 => at!(1, 7), at!(2, 13), at!(4, 25), at!(8, 50), at!(16, 125), at!(32, 250), None, None),
        by_reserve!(ONE_LINK, 2905, 3 => reserves!(5344, 3, row!(1, 4, 100), BLANK)),
        by_reserve!(ONE_LINK, 2904, 3 => reserves!(6848, 3, row!(1, 2, 40), BLANK)),
        by_reserve!(ONE_LINK, 1461, 3 => reserves!(10_752, 3, row!(1, 1, 17), BLANK)),
        by_reserve!(ONE_LINK, 1460, 3 => refused!(18, 0)),
        by_reserve!(ONE_LINK, 1460, 2 => refused!(17, 0)),
        by_reserve!(TWO_LINKS, 1000, 6 => refused!(18, 0)),
        by_reserve!(TWO_LINKS, 1000, 5 => refused!(17, 0)),
        by_reserve!(TWO_LINKS, 10_000, 42 => reserves!(2340, 42, row!(1, 16, 67), row!(2, 32, 250))),
        by_reserve!(TWO_LINKS, 10_000, 41 => refused!(17, 0)),
        by_reserve!(TWO_LINKS, 10_157, 42 => reserves!(2336, 42, row!(1, 32, 200), row!(2, 32, 250))),
        by_reserve!(TWO_LINKS, 10_156, 42 => reserves!(2340, 42, row!(1, 16, 67), row!(2, 32, 250))),
        by_burst!(TWO_LINKS, 10_000, 10_000, 36 => bursts!(146, 18_688, 36, row!(1, 1, 5), row!(2, 1, 7))),
        by_burst!(TWO_LINKS, 10_000, 1167, 36 => bursts!(150, 14_336, 36, row!(1, 2, 9), row!(2, 1, 7))),
        pairs!(EVERY_6, 1 => at!(1, 1366), None, None, None, None, None, None, None),
        pairs!(EVERY_5, 1 => None, None, None, None, None, None, None, None),
        by_reserve!(EVERY_5, 10_000, 0 => refused!(16, 1)),
        pairs!(EVERY_128, 1 => at!(1, 12), at!(2, 23), at!(4, 46), at!(8, 92),
            at!(16, 184), at!(32, 368), at!(64, 736), at!(128, 1471)),
        pairs!(EVERY_127, 1 => at!(1, 12), at!(2, 24), at!(4, 48), at!(8, 99),
            at!(16, 211), at!(32, 491), at!(64, 1471), None),
        one_more_flow!(EVERY_999 => Told::Accepted),
        one_more_flow!(EVERY_1001 => refused!(11, 0)),
    ]
}
