// Expected bits, worked by hand.

use crate::programs::{AMONG, GEOMETRIC, TWO_COINS, TWO_THIRDS, program};
use crate::rows::{Pair, is};
use cost_fold::{CostError, cost};
use gcl_core::Limits;
use std::alloc::Global;

const DIE: &str = "face ~ uniform(6); return face;";

// A coin, and with heads a die of three sides; the states meet again.
const BRANCHES: &str =
    "c ~ uniform(2); if c = 1 { x ~ uniform(3); x := 0; c := 0; } else { skip; } return x;";

// An arm of part 0 is never reached.
const UNREACHED: &str =
    "choose { 1: { x ~ uniform(2); } | 0: { x ~ uniform(3); } | 1: { skip; } } return x;";

// The limits of turns, attempts and rounds.
struct Case {
    text: &'static str,
    limits: (u64, u64, u64),
    want: Result<Pair, CostError>,
}

// At 2/3 an attempt reads 1 + 1/2 bits, and is made again with 1/4; at a die 1 + 1 + 3/4, again with 1/4. A round of two coins
// reads 2, and fails with 1/4. The first turn of the geometric loop reads 1, and the second 1 with 1/2. With the parts 3, 2 and 1
// all numbers have one class behind 00 and 11 alone: 1 + 1 + 1/2, again with 1/4. With 1, 0 and 1 an attempt reads 1, and a coin
// follows with 1/2.
const CASES: [Case; 15] = [
    Case {
        text: TWO_THIRDS,
        limits: (30, 1, 1),
        want: Ok((3, 2)),
    },
    Case {
        text: TWO_THIRDS,
        limits: (30, 2, 1),
        want: Ok((15, 8)),
    },
    Case {
        text: TWO_THIRDS,
        limits: (30, 100, 1),
        want: Err(CostError::TooWide),
    },
    Case {
        text: AMONG,
        limits: (30, 1, 1),
        want: Ok((5, 2)),
    },
    Case {
        text: AMONG,
        limits: (30, 2, 1),
        want: Ok((25, 8)),
    },
    Case {
        text: UNREACHED,
        limits: (30, 1, 1),
        want: Ok((3, 2)),
    },
    Case {
        text: TWO_COINS,
        limits: (30, 1, 1),
        want: Ok((2, 1)),
    },
    Case {
        text: TWO_COINS,
        limits: (30, 1, 2),
        want: Ok((5, 2)),
    },
    Case {
        text: TWO_COINS,
        limits: (30, 1, 1000),
        want: Err(CostError::TooWide),
    },
    Case {
        text: GEOMETRIC,
        limits: (2, 1, 1),
        want: Ok((3, 2)),
    },
    Case {
        text: "return 7;",
        limits: (30, 1, 1),
        want: Ok((0, 1)),
    },
    Case {
        text: DIE,
        limits: (30, 1, 1),
        want: Ok((11, 4)),
    },
    Case {
        text: DIE,
        limits: (30, 3, 1),
        want: Ok((231, 64)),
    },
    Case {
        text: BRANCHES,
        limits: (30, 1, 1),
        want: Ok((2, 1)),
    },
    Case {
        text: "x ~ uniform(65537); return x % 2;",
        limits: (30, 1, 1),
        want: Err(CostError::TooManyStates),
    },
];

fn is_as_told(alloc: Global, case: &Case) -> bool {
    let (turns, attempts, rounds) = case.limits;
    let l = Limits {
        turns,
        attempts,
        rounds,
    };
    if l.turns > 1000 || l.attempts > 1000 || l.rounds > 1000 {
        return false;
    }
    if l.attempts == 0 || l.rounds == 0 {
        return false;
    }
    match program(alloc, case.text) {
        None => false,
        Some(p) => match cost(alloc, &p, &l) {
            Ok(f) => match case.want {
                Ok(want) => is(&f, want),
                Err(_) => false,
            },
            Err(error) => match case.want {
                Ok(_) => false,
                Err(want) => error == want,
            },
        },
    }
}

fn all_as_told(alloc: Global, cases: &[Case]) -> bool {
    for case in cases {
        if !is_as_told(alloc, case) {
            return false;
        }
    }
    true
}

#[test]
fn expected_bits_of_programs(rt: HostRuntime) {
    assert!(rt; all_as_told(rt.alloc(), &CASES));
}
