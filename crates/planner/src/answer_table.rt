ghost use Rattle.std.specs.Prelude.{◌≡◌, ◌≤◌, length, Some};
ghost use Rattle.planner.specs.Ending.{filled};

use crate::row::Row;
use limits::Pair;

/// Writes a setting into the first rows: each link with its pair.
pub(crate) fn write_rows(links: &[u16], setting: &[Pair], answer: &mut [Row])
    requires pairs { length links.now ≤ length setting.now }
    requires rows { length links.now ≤ length answer.now }
    ensures { answer.new ≡ filled links.now (Some setting.now) answer.old }
{
    for (place, link) in links.iter().enumerate() {
        answer[place] = Row {
            link: *link,
            pair: setting[place],
        };
    }
}
