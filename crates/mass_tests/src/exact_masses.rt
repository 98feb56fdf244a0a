// Exact masses of programs, worked by hand or by a solver in fractions.

use crate::programs::program;
use crate::rows::{Pair, Rows, has_rows, is};
use exact_fold::{ExactError, exact};
use gcl_core::{Fault, Outcome};
use std::alloc::Global;
use std::test::Fail;

// A program, its rows, and what runs for ever.
struct Case {
    text: &'static str,
    want: Result<(Rows, Pair), ExactError>,
}

const GAMBLER: &str =
    "x := 2; while x > 0 and x < 5 { choice 1/3 { x := x + 1; } or { x := x - 1; } } return x;";

const LONG_GAME: &str =
    "x := 6; while x > 0 and x < 11 { choice 1/3 { x := x + 1; } or { x := x - 1; } } return x;";

const FLAG: &str = "go := 1; while go = 1 { choice 1/2 { x := 1 - x; } or { go := 0; } } return x;";

const WAITS: &str = "choice 1/3 { x := 1; } or { skip; } while x = 0 { skip; } return x;";

const NESTED: &str =
    "while x < 2 { y := 0; while y = 0 { y ~ uniform(2); } choice 1/3 { x := x + 1; } or { skip; } } return x + y;";

const OBSERVED: &str = "while x = 0 { x ~ uniform(3); observe x < 2; } return x;";

const NO_LOOP: &str = "choice 1/3 { x := 1; } or { x := 1 / x; } return x;";

const IMPOSSIBLE: &str = "x ~ uniform(2); observe x = 2; return x;";

const FAULTS: &str =
    "while x < 3 { x ~ uniform(6 - x); y := 10 / (x - 1); if x = 2 { while y > 0 { skip; } } else { skip; } } return x;";

const SEVERAL: &str =
    "while x = 0 { choose { 3: { x := 1; } | 2: { while y = 0 { y ~ uniform(2); } } | 1: { x := 3; } } } return x;";

const MAY_WAIT: &str =
    "while x = 0 { choose { 1: { x := 1; } | 1: { y := 1; } | 2: { skip; } } if y = 1 { while y = 1 { skip; } } else { skip; } } return x;";

const SQUARE: &str =
    "x := 3; y := 2; while x > 0 and x < 7 and y > 0 and y < 7 { choose { 1: { x := x + 1; } | 1: { x := x - 1; } | 1: { y := y + 1; } | 1: { y := y - 1; } } } if x = 0 { z := 1; } else { if x = 7 { z := 2; } else { if y = 0 { z := 3; } else { z := 4; } } } return z;";

const CASES: [Case; 12] = [
    Case {
        text: GAMBLER,
        want: Ok((
            &[(Outcome::Value(0), (28, 31)), (Outcome::Value(5), (3, 31))],
            (0, 1),
        )),
    },
    Case {
        text: LONG_GAME,
        want: Ok((
            &[
                (Outcome::Value(0), (1984, 2047)),
                (Outcome::Value(11), (63, 2047)),
            ],
            (0, 1),
        )),
    },
    Case {
        text: FLAG,
        want: Ok((
            &[(Outcome::Value(0), (2, 3)), (Outcome::Value(1), (1, 3))],
            (0, 1),
        )),
    },
    Case {
        text: WAITS,
        want: Ok((&[(Outcome::Value(1), (1, 3))], (2, 3))),
    },
    Case {
        text: NESTED,
        want: Ok((&[(Outcome::Value(3), (1, 1))], (0, 1))),
    },
    Case {
        text: OBSERVED,
        want: Ok((&[(Outcome::Value(1), (1, 1))], (0, 1))),
    },
    Case {
        text: NO_LOOP,
        want: Ok((
            &[
                (Outcome::Value(1), (1, 3)),
                (Outcome::Fault(Fault::ZeroDivisor), (2, 3)),
            ],
            (0, 1),
        )),
    },
    Case {
        text: IMPOSSIBLE,
        want: Err(ExactError::AllFailed),
    },
    Case {
        text: FAULTS,
        want: Ok((
            &[
                (Outcome::Value(3), (1, 5)),
                (Outcome::Value(4), (1, 5)),
                (Outcome::Value(5), (1, 5)),
                (Outcome::Fault(Fault::ZeroDivisor), (1, 5)),
            ],
            (1, 5),
        )),
    },
    Case {
        text: SEVERAL,
        want: Ok((
            &[(Outcome::Value(1), (3, 4)), (Outcome::Value(3), (1, 4))],
            (0, 1),
        )),
    },
    Case {
        text: MAY_WAIT,
        want: Ok((&[(Outcome::Value(1), (1, 2))], (1, 2))),
    },
    Case {
        text: SQUARE,
        want: Ok((
            &[
                (Outcome::Value(1), (2561, 9976)),
                (Outcome::Value(2), (1567, 9976)),
                (Outcome::Value(3), (4743, 9976)),
                (Outcome::Value(4), (1105, 9976)),
            ],
            (0, 1),
        )),
    },
];

fn is_as_told(alloc: Global, case: &Case) -> bool {
    match program(alloc, case.text) {
        None => false,
        Some(p) => match exact(alloc, &p) {
            Ok(masses) => match case.want {
                Ok((rows, endless)) => {
                    has_rows(&masses.rows, rows) && is(&masses.endless, endless)
                }
                Err(_) => false,
            },
            Err(error) => match case.want {
                Ok(_) => false,
                Err(want) => error == want,
            },
        },
    }
}

fn all_as_told(alloc: Global, cases: &[Case]) -> bool {
    for case in cases {
        if !is_as_told(alloc, case) {
            return false;
        }
    }
    true
}

#[test]
fn exact_masses_of_programs(rt: HostRuntime) -> Result<(), Fail> {
    assert!(rt; all_as_told(rt.alloc(), &CASES));
    Ok(())
}
