// How many rounds programs begin on average where nothing is limited, worked by hand.

use crate::programs::program;
use crate::rows::{Pair, comes_to, has_no_bound};
use bits_fold::{BitsError, Count, rounds_in_the_limit};
use std::alloc::Global;
use std::test::Fail;

// No round fails.
const DIE: &str = "face ~ uniform(6); return face + 1;";

// Half of them fail.
const EVEN_DIE: &str = "face ~ uniform(6); observe face % 2 = 1; return face + 1;";

// 5 of 36 pairs are kept.
const TWO_DICE: &str = "a ~ uniform(6); b ~ uniform(6); observe a + 1 + (b + 1) = 8; return a + 1;";

// Two tosses of a coin of 1/4 differ with 3/8.
const VON_NEUMANN: &str =
    "choice 1/4 { a := 1; } or { } choice 1/4 { b := 1; } or { } observe a != b; return a;";

// Three heads by a coin of 1, 2 or 3 quarters: (1 + 8 + 27)/(3 64).
const THREE_HEADS: &str =
    "quarters ~ uniform(3); quarters := quarters + 1; while tosses < 3 { tosses := tosses + 1; heads ~ uniform(4); observe heads < quarters; } return quarters;";

// The loop is left with 1 or with 2, each as likely, whatever its draws took.
const AFTER_A_LOOP: &str = "while x = 0 { x ~ uniform(3); } observe x = 1; return x;";

// It never fails, and never ends.
const FOREVER: &str = "while true { x ~ uniform(2); } return x;";

// A round that goes on for ever, with 1/2, fails no more.
const HALF_FOREVER: &str = "x ~ uniform(2); while x = 1 { skip; } observe false; return x;";

const NEVER: &str = "x ~ uniform(2); observe false; return x;";

const NOTHING: &str = "observe false; return 0;";

struct Case {
    text: &'static str,
    want: Pair,
}

const CASES: [Case; 8] = [
    Case {
        text: DIE,
        want: (1, 1),
    },
    Case {
        text: EVEN_DIE,
        want: (2, 1),
    },
    Case {
        text: TWO_DICE,
        want: (36, 5),
    },
    Case {
        text: VON_NEUMANN,
        want: (8, 3),
    },
    Case {
        text: THREE_HEADS,
        want: (16, 3),
    },
    Case {
        text: AFTER_A_LOOP,
        want: (2, 1),
    },
    Case {
        text: FOREVER,
        want: (1, 1),
    },
    Case {
        text: HALF_FOREVER,
        want: (2, 1),
    },
];

fn rounds_of(alloc: Global, text: &str) -> Option<Result<Count, BitsError>> {
    Some(rounds_in_the_limit(alloc, &program(alloc, text)?))
}

fn has_rounds(alloc: Global, text: &str, want: Pair) -> bool {
    match &rounds_of(alloc, text) {
        Some(count) => comes_to(count, want),
        None => false,
    }
}

fn is_unbounded(alloc: Global, text: &str) -> bool {
    match &rounds_of(alloc, text) {
        Some(count) => has_no_bound(count),
        None => false,
    }
}

#[test]
fn expected_rounds(rt: HostRuntime) -> Result<(), Fail> {
    for case in &CASES {
        assert!(rt; has_rounds(rt.alloc(), case.text, case.want));
    }
    Ok(())
}

#[test]
fn rounds_that_all_fail(rt: HostRuntime) -> Result<(), Fail> {
    assert!(rt; is_unbounded(rt.alloc(), NEVER));
    assert!(rt; is_unbounded(rt.alloc(), NOTHING));
    Ok(())
}
