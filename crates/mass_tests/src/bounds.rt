// Bounds of programs.

use crate::programs::{GEOMETRIC, IMPOSSIBLE, TWO_COINS, program};
use crate::rows::{Pair, is};
use bounds_law::BoundRows;
use gcl_core::{Fault, Outcome};
use mass_fold::MassError;
use posterior_bounds::bounds;
use std::alloc::Global;
use std::test::Fail;

const OBSERVED: &str =
    "go := 1; while go = 1 { choice 1/2 { x := x + 1; } or { go := 0; } } observe x < 2; return x;";

const EIGHT_AND_HEADS: &str =
    "a ~ uniform(6); b ~ uniform(6); observe a + b = 8; heads := 0; while heads = 0 { heads ~ uniform(2); } return a;";

const DIVIDED: &str = "x ~ uniform(2); return 1 / x;";

type Rows = &'static [(Outcome, Pair, Pair)];

// A program, its limit of turns, its rows, and what others have at most.
struct Case {
    text: &'static str,
    turns: u64,
    want: Result<(Rows, Pair), MassError>,
}

const CASES: [Case; 10] = [
    Case {
        text: GEOMETRIC,
        turns: 0,
        want: Ok((&[], (1, 1))),
    },
    Case {
        text: GEOMETRIC,
        turns: 2,
        want: Ok((
            &[
                (Outcome::Value(0), (1, 2), (3, 4)),
                (Outcome::Value(1), (1, 4), (1, 2)),
            ],
            (1, 4),
        )),
    },
    Case {
        text: GEOMETRIC,
        turns: 3,
        want: Ok((
            &[
                (Outcome::Value(0), (1, 2), (5, 8)),
                (Outcome::Value(1), (1, 4), (3, 8)),
                (Outcome::Value(2), (1, 8), (1, 4)),
            ],
            (1, 8),
        )),
    },
    Case {
        text: GEOMETRIC,
        turns: 128,
        want: Err(MassError::TooWide),
    },
    Case {
        text: OBSERVED,
        turns: 3,
        want: Ok((
            &[
                (Outcome::Value(0), (4, 7), (5, 7)),
                (Outcome::Value(1), (2, 7), (3, 7)),
            ],
            (1, 7),
        )),
    },
    Case {
        text: TWO_COINS,
        turns: 30,
        want: Ok((
            &[
                (Outcome::Value(1), (2, 3), (2, 3)),
                (Outcome::Value(2), (1, 3), (1, 3)),
            ],
            (0, 1),
        )),
    },
    Case {
        text: EIGHT_AND_HEADS,
        turns: 1,
        want: Ok((
            &[
                (Outcome::Value(3), (1, 6), (2, 3)),
                (Outcome::Value(4), (1, 6), (2, 3)),
                (Outcome::Value(5), (1, 6), (2, 3)),
            ],
            (1, 2),
        )),
    },
    Case {
        text: EIGHT_AND_HEADS,
        turns: 0,
        want: Ok((&[], (1, 1))),
    },
    Case {
        text: DIVIDED,
        turns: 30,
        want: Ok((
            &[
                (Outcome::Value(1), (1, 2), (1, 2)),
                (Outcome::Fault(Fault::ZeroDivisor), (1, 2), (1, 2)),
            ],
            (0, 1),
        )),
    },
    Case {
        text: IMPOSSIBLE,
        turns: 30,
        want: Err(MassError::AllFailed),
    },
];

fn has_rows(rows: &BoundRows, want: Rows) -> bool {
    if rows.count() != want.len() {
        return false;
    }
    for i in 0..want.len() {
        let (x, low, high) = rows.get(i);
        let (outcome, from, to) = want[i];
        if *x != outcome || !is(low, from) || !is(high, to) {
            return false;
        }
    }
    true
}

fn is_as_told(alloc: Global, case: &Case) -> bool {
    if case.turns > 1000 {
        return false;
    }
    match program(alloc, case.text) {
        None => false,
        Some(p) => match bounds(alloc, &p, case.turns) {
            Ok(b) => match case.want {
                Ok((rows, other)) => has_rows(&b.rows, rows) && is(&b.other, other),
                Err(_) => false,
            },
            Err(error) => match case.want {
                Ok(_) => false,
                Err(want) => error == want,
            },
        },
    }
}

fn all_as_told(alloc: Global, cases: &[Case]) -> bool {
    for case in cases {
        if !is_as_told(alloc, case) {
            return false;
        }
    }
    true
}

#[test]
fn bounds_of_programs(rt: HostRuntime) -> Result<(), Fail> {
    assert!(rt; all_as_told(rt.alloc(), &CASES));
    Ok(())
}
