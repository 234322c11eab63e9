//! Solves under a limit and by a measure that another author wrote.
ghost use Rattle.std.specs.Prelude.{true};
ghost use Rattle.std.proofs.Common.{rules};

use crate::plans::{BEFORE, row, two_links};
use crate::solving::found;
use limits::{Limit, Measure, Pair, Port, PortLimit, Reserve};
use plan::Plan;
use planner::{SolveFault, WorkRow, solve, work_row};
use std::array;
use std::test::Fail;

/// A limit under which every selection has the same breach, and so does the empty one.
#[derive(Clone, Copy)]
struct Always {
    breach: u32,
}

impl Limit for Always {
    type Load = ();

    type Weight = ();

    ghost loaded = { λ l s. tt };

    ghost weighed = { λ l p. tt };

    ghost breach = { λ l s. l.breach };

    ghost beginning = { Prim.search rules };

    ghost lowered = { Prim.search rules };

    fn empty_load(&self) {}

    fn weight_of(&self, _pair: Pair) {}

    fn load_with(&self, _load: (), _pair: Pair, _weight: ()) {}

    fn breach_of(&self, _load: ()) -> u32 {
        self.breach
    }
}

/// A measure by which every selection costs the same, so that the first setting ends the search.
#[derive(Clone, Copy)]
struct Free;

impl Measure for Free {
    type Total = ();

    type Cost = ();

    ghost totalled = { λ m s. tt };

    ghost costed = { λ m p. tt };

    ghost atmost = { λ m x y. true };

    ghost either = { Prim.search rules };

    ghost chained = { Prim.search rules };

    ghost beginning = { Prim.search rules };

    ghost lowered = { Prim.search rules };

    fn empty_total(&self) {}

    fn cost_of(&self, _pair: Pair) {}

    fn total_with(&self, _total: (), _pair: Pair, _cost: ()) {}

    fn no_more(&self, _x: (), _y: ()) -> bool {
        true
    }
}

#[test]
fn where_not_even_the_empty_selection_is_within(rt: HostRuntime) -> Result<(), Fail> {
    let mut answer = [BEFORE; 2];
    let mut work: [WorkRow<Always, Reserve>; 3] = array::from_fn(|_| work_row(
        &Always { breach: 1 },
        &Reserve,
    ));
    for plan in [Plan::open(), two_links()?] {
        assert_eq!(rt;
            solve(
                &plan,
                &Always { breach: 1 },
                &Reserve,
                0,
                &mut answer,
                &mut work
            ),
            Err(SolveFault::NothingWithin)
        );
        assert_eq!(rt; answer, [BEFORE; 2]);
    }
    assert_eq!(rt;
        solve(
            &two_links()?,
            &Always { breach: 0 },
            &Reserve,
            42,
            &mut answer,
            &mut work
        ),
        found(2336, 42)
    );
    Ok(())
}

#[test]
fn nothing_is_tried_that_cannot_cost_less(rt: HostRuntime) -> Result<(), Fail> {
    let plan = two_links()?;
    for (floor, visits, first, second) in [
        (1, 2, row(1, 1, 5), row(2, 1, 7)),
        (2, 4, row(1, 2, 9), row(2, 2, 13)),
    ] {
        let limit = Port::new(10_000, 10_000, floor)?.limit();
        let mut answer = [BEFORE; 2];
        let mut work: [WorkRow<PortLimit, Free>; 3] = array::from_fn(|_| work_row(&limit, &Free));
        assert_eq!(rt;
            (
                solve(&plan, &limit, &Free, visits, &mut answer, &mut work),
                answer
            ),
            (found((), visits), [first, second]),
            "from {floor}"
        );
    }
    Ok(())
}
