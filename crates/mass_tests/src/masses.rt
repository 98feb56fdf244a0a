// Masses of small programs.

use crate::programs::{AMONG, GEOMETRIC, IMPOSSIBLE, TWO_COINS, TWO_THIRDS, program};
use crate::rows::{Rows, has_rows, is};
use gcl_core::{Limit, Outcome};
use mass_fold::{MassError, mass, round};
use std::alloc::Global;
use std::test::Fail;

// An arm of part 0 has no row.
const ONE_NONE_ONE: &str = "choose { 1: { x := 1; } | 0: { x := 2; } | 1: { x := 3; } } return x;";

const EVEN_AND_ODD: &str = "x ~ uniform(65536); return x % 2;";

const ONE_STATE_MORE: &str = "x ~ uniform(65537); return x % 2;";

// A program, its limits of turns, attempts and rounds, and what comes under them.
struct Case {
    text: &'static str,
    turns: u64,
    attempts: Option<u64>,
    rounds: Option<u64>,
    want: Result<Rows, MassError>,
}

// With the parts 3, 2 and 1 three, two and one of the eight numbers of an attempt are of a class, and two are rejected.
const CASES: [Case; 17] = [
    Case {
        text: TWO_THIRDS,
        turns: 30,
        attempts: Some(1),
        rounds: None,
        want: Ok(&[
            (Outcome::Value(1), (1, 2)),
            (Outcome::Value(2), (1, 4)),
            (Outcome::Limit(Limit::Attempts), (1, 4)),
        ]),
    },
    Case {
        text: TWO_THIRDS,
        turns: 30,
        attempts: Some(2),
        rounds: None,
        want: Ok(&[
            (Outcome::Value(1), (5, 8)),
            (Outcome::Value(2), (5, 16)),
            (Outcome::Limit(Limit::Attempts), (1, 16)),
        ]),
    },
    Case {
        text: TWO_THIRDS,
        turns: 30,
        attempts: None,
        rounds: None,
        want: Ok(&[(Outcome::Value(1), (2, 3)), (Outcome::Value(2), (1, 3))]),
    },
    Case {
        text: AMONG,
        turns: 30,
        attempts: Some(1),
        rounds: None,
        want: Ok(&[
            (Outcome::Value(1), (3, 8)),
            (Outcome::Value(2), (1, 4)),
            (Outcome::Value(3), (1, 8)),
            (Outcome::Limit(Limit::Attempts), (1, 4)),
        ]),
    },
    Case {
        text: AMONG,
        turns: 30,
        attempts: Some(2),
        rounds: None,
        want: Ok(&[
            (Outcome::Value(1), (15, 32)),
            (Outcome::Value(2), (5, 16)),
            (Outcome::Value(3), (5, 32)),
            (Outcome::Limit(Limit::Attempts), (1, 16)),
        ]),
    },
    Case {
        text: AMONG,
        turns: 30,
        attempts: None,
        rounds: None,
        want: Ok(&[
            (Outcome::Value(1), (1, 2)),
            (Outcome::Value(2), (1, 3)),
            (Outcome::Value(3), (1, 6)),
        ]),
    },
    Case {
        text: ONE_NONE_ONE,
        turns: 30,
        attempts: Some(1),
        rounds: None,
        want: Ok(&[(Outcome::Value(1), (1, 2)), (Outcome::Value(3), (1, 2))]),
    },
    Case {
        text: TWO_COINS,
        turns: 30,
        attempts: None,
        rounds: Some(1),
        want: Ok(&[
            (Outcome::Value(1), (1, 2)),
            (Outcome::Value(2), (1, 4)),
            (Outcome::Limit(Limit::Rounds), (1, 4)),
        ]),
    },
    Case {
        text: TWO_COINS,
        turns: 30,
        attempts: None,
        rounds: Some(2),
        want: Ok(&[
            (Outcome::Value(1), (5, 8)),
            (Outcome::Value(2), (5, 16)),
            (Outcome::Limit(Limit::Rounds), (1, 16)),
        ]),
    },
    Case {
        text: TWO_COINS,
        turns: 30,
        attempts: None,
        rounds: None,
        want: Ok(&[(Outcome::Value(1), (2, 3)), (Outcome::Value(2), (1, 3))]),
    },
    Case {
        text: GEOMETRIC,
        turns: 0,
        attempts: None,
        rounds: None,
        want: Ok(&[(Outcome::Limit(Limit::Turns), (1, 1))]),
    },
    Case {
        text: GEOMETRIC,
        turns: 2,
        attempts: None,
        rounds: None,
        want: Ok(&[
            (Outcome::Value(0), (1, 2)),
            (Outcome::Value(1), (1, 4)),
            (Outcome::Limit(Limit::Turns), (1, 4)),
        ]),
    },
    Case {
        text: GEOMETRIC,
        turns: 128,
        attempts: None,
        rounds: None,
        want: Err(MassError::TooWide),
    },
    Case {
        text: IMPOSSIBLE,
        turns: 30,
        attempts: None,
        rounds: None,
        want: Err(MassError::AllFailed),
    },
    Case {
        text: IMPOSSIBLE,
        turns: 30,
        attempts: None,
        rounds: Some(3),
        want: Ok(&[(Outcome::Limit(Limit::Rounds), (1, 1))]),
    },
    Case {
        text: EVEN_AND_ODD,
        turns: 30,
        attempts: None,
        rounds: None,
        want: Ok(&[(Outcome::Value(0), (1, 2)), (Outcome::Value(1), (1, 2))]),
    },
    Case {
        text: ONE_STATE_MORE,
        turns: 30,
        attempts: None,
        rounds: None,
        want: Err(MassError::TooManyStates),
    },
];

fn comes(alloc: Global, case: &Case) -> bool {
    if case.turns > 1000 {
        return false;
    }
    if let Some(r) = case.attempts
        && (r < 1 || r > 1000)
    {
        return false;
    }
    if let Some(r) = case.rounds
        && (r < 1 || r > 1000)
    {
        return false;
    }
    match program(alloc, case.text) {
        None => false,
        Some(p) => match mass(alloc, &p, case.turns, case.attempts, case.rounds) {
            Ok(rows) => match case.want {
                Ok(want) => has_rows(&rows, want),
                Err(_) => false,
            },
            Err(error) => match case.want {
                Ok(_) => false,
                Err(want) => error == want,
            },
        },
    }
}

fn all_come(alloc: Global, cases: &[Case]) -> bool {
    for case in cases {
        if !comes(alloc, case) {
            return false;
        }
    }
    true
}

#[test]
fn masses_of_programs(rt: HostRuntime) -> Result<(), Fail> {
    assert!(rt; all_come(rt.alloc(), &CASES));
    Ok(())
}

const OF_ONE_ROUND: Rows = &[(Outcome::Value(1), (1, 2)), (Outcome::Value(2), (1, 4))];

// One round of two coins.
fn is_one_round(alloc: Global) -> bool {
    match program(alloc, TWO_COINS) {
        None => false,
        Some(p) => match round(alloc, &p, 30, None) {
            Ok(one) => is(&one.failed, (1, 4)) && has_rows(&one.rows, OF_ONE_ROUND),
            Err(_) => false,
        },
    }
}

#[test]
fn one_round(rt: HostRuntime) -> Result<(), Fail> {
    assert!(rt; is_one_round(rt.alloc()));
    Ok(())
}
