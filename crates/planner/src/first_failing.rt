ghost use Rattle.std.specs.Prelude.{◌≡◌, ◌≤◌, Bool, length};
ghost use Rattle.std.specs.Fn.{FnReturnsAt};
ghost use Rattle.plan.specs.Bounds.{max_links};
ghost use Rattle.planner.specs.declared.row.Row.{Row};
ghost use Rattle.planner.specs.Asked.{first_failing};

use crate::row::Row;

/// The place, from 1, of the first row that does not pass.
pub(crate) fn first_failing<F: Fn(&Row) -> bool>(rows: &[Row], passes: F) -> Option<u32>
    requires few { length rows.now ≤ max_links }
    requires callable { F.IsAlwaysCallable passes }
    ensures { (test : Row → Bool) → ((row : Row) (answer : Bool) → FnReturnsAt F.Fn passes row answer → answer ≡ test row) → result ≡ first_failing test rows.now }
{
    rows.iter()
        .position(|row| !passes(row))
        .map(|index| index as u32 + 1)
}
