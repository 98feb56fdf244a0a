// Rounds over units at least and at most, worked by hand. The whole has 2^120 units; they are doubled as often as what has not failed
// still stays within it.

use crate::programs::{TWO_COINS, program};
use gcl_core::{Limit, Outcome};
use scaled_fold::{Ends, round_in_pairs};
use std::alloc::Global;
use std::test::Fail;

const WHOLE: u128 = 1 << 120;

// 2^120 = 3 * THIRD + 1.
const THIRD: u128 = 443_075_998_594_971_957_634_602_353_426_781_525;

const TWO_OF_THREE: &str = "x ~ uniform(3); observe x < 2; return x;";

const HUNDRED_HEADS: &str =
    "while n < 100 { n := n + 1; x ~ uniform(2); observe x = 1; x := 0; } return n;";

const FILTER: &str =
    "y ~ uniform(2); while n < 100 { n := n + 1; if y = 1 { x ~ uniform(2); } else { x ~ uniform(4); } observe x = 1; x := 0; } return y;";

const ONE_OF_THREE: &str = "x ~ uniform(3); observe x = 2; return x;";

const ONE_IN_THREE: &str = "choice 1/3 { x := 1; } or { x := 2; } return x;";

const THREE_ARMS: &str = "choose { 1: { x := 1; } | 3: { x := 2; } | 1: { x := 3; } } return x;";

struct Case {
    text: &'static str,
    turns: u64,
    attempts: Option<u64>,
    want: &'static [(Outcome, u128, u128)],
}

// Of two coins three quarters are left, and of three sides two thirds, which is no room for twice as many. Each head leaves half, which is
// doubled. Of the filter the state 1 keeps a half and the state 0 a quarter in each turn: after the first turn 3/8 of the whole is left, and
// is doubled; from then on the state 1 has half of the whole after each turn, and the state 0 half of what it had.
// Of three sides an attempt gives each with a quarter, and none with another; where one is observed, half of the whole is left, and is doubled,
// what ended before, too. After 61 attempts 2^-122 is undecided: of that no unit is certain, and one at most; each side has a third of all
// units but one at least, and of all at most. Of five parts an attempt gives each with an eighth, and none with three of them.
const CASES: [Case; 9] = [
    Case {
        text: TWO_COINS,
        turns: 0,
        attempts: None,
        want: &[
            (Outcome::Value(1), WHOLE / 2, WHOLE / 2),
            (Outcome::Value(2), WHOLE / 4, WHOLE / 4),
        ],
    },
    Case {
        text: TWO_OF_THREE,
        turns: 0,
        attempts: None,
        want: &[
            (Outcome::Value(0), THIRD, THIRD + 1),
            (Outcome::Value(1), THIRD, THIRD + 1),
        ],
    },
    Case {
        text: HUNDRED_HEADS,
        turns: 100,
        attempts: None,
        want: &[(Outcome::Value(100), WHOLE, WHOLE)],
    },
    Case {
        text: FILTER,
        turns: 100,
        attempts: None,
        want: &[
            (Outcome::Value(0), 1 << 19, 1 << 19),
            (Outcome::Value(1), 1 << 119, 1 << 119),
        ],
    },
    Case {
        text: HUNDRED_HEADS,
        turns: 100,
        attempts: Some(1),
        want: &[(Outcome::Value(100), WHOLE, WHOLE)],
    },
    Case {
        text: ONE_OF_THREE,
        turns: 0,
        attempts: Some(1),
        want: &[
            (Outcome::Value(2), WHOLE / 2, WHOLE / 2),
            (Outcome::Limit(Limit::Attempts), WHOLE / 2, WHOLE / 2),
        ],
    },
    Case {
        text: TWO_OF_THREE,
        turns: 0,
        attempts: Some(61),
        want: &[
            (Outcome::Value(0), THIRD, THIRD + 1),
            (Outcome::Value(1), THIRD, THIRD + 1),
            (Outcome::Limit(Limit::Attempts), 0, 1),
        ],
    },
    Case {
        text: ONE_IN_THREE,
        turns: 0,
        attempts: Some(2),
        want: &[
            (Outcome::Value(1), 5 * (WHOLE / 16), 5 * (WHOLE / 16)),
            (Outcome::Value(2), 5 * (WHOLE / 8), 5 * (WHOLE / 8)),
            (Outcome::Limit(Limit::Attempts), WHOLE / 16, WHOLE / 16),
        ],
    },
    Case {
        text: THREE_ARMS,
        turns: 0,
        attempts: Some(1),
        want: &[
            (Outcome::Value(1), WHOLE / 8, WHOLE / 8),
            (Outcome::Value(2), 3 * (WHOLE / 8), 3 * (WHOLE / 8)),
            (Outcome::Value(3), WHOLE / 8, WHOLE / 8),
            (
                Outcome::Limit(Limit::Attempts),
                3 * (WHOLE / 8),
                3 * (WHOLE / 8),
            ),
        ],
    },
];

// How many outcomes have a unit at most.
fn reached(ends: &Ends) -> usize {
    let mut count = 0usize;
    for (_, (_, most)) in &ends.outcomes {
        if *most > 0 {
            count = count.wrapping_add(1);
        }
    }
    count
}

fn are(ends: &Ends, want: &[(Outcome, u128, u128)]) -> bool {
    for (outcome, least, most) in want {
        match ends.outcomes.get(outcome) {
            Some((low, high)) => {
                if low != least || high != most {
                    return false;
                }
            }
            None => return false,
        }
    }
    reached(ends) == want.len() && ends.loose == 0
}

fn is_as_told(alloc: Global, case: &Case) -> bool {
    match program(alloc, case.text) {
        Some(checked) => match round_in_pairs(alloc, &checked, case.turns, case.attempts) {
            Ok(ends) => are(&ends, case.want),
            Err(_) => false,
        },
        None => false,
    }
}

#[test]
fn rounds_are_those_worked_by_hand(rt: HostRuntime) -> Result<(), Fail> {
    for case in &CASES {
        assert!(rt; is_as_told(rt.alloc(), case));
    }
    Ok(())
}
