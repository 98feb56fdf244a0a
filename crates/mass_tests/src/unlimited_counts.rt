// How many draws and turns of loops programs make on average where nothing is limited, worked by hand.

use crate::programs::program;
use crate::rows::{Pair, comes_to, has_no_bound};
use bits_fold::{BitsError, Count, Counted, count_in_the_limit};
use std::alloc::Global;
use std::test::Fail;

// Half of the rounds fail.
const EVEN_DIE: &str = "face ~ uniform(6); observe face % 2 = 1; return face + 1;";

// An attempt of the draw is rejected with 1/4: the draw counts once all the same.
const THIRD: &str = "x ~ uniform(3); return x;";

// Left with 1/2 at each turn.
const COIN: &str = "while x = 0 { x ~ uniform(2); } return x;";

// 3 turns of 3 turns, and the 3 around them.
const NESTED: &str = "while i < 3 { j := 0; while j < 3 { j := j + 1; } i := i + 1; } return i;";

// A round that passes with 3/16 tosses until one fails: 1, p and p^2 tosses for the coins of 1/4, 2/4 and 3/4, so (1 + 1/4 + 1/16 +
// 1 + 1/2 + 1/4 + 1 + 3/4 + 9/16)/3 = 43/24 turns, over 3/16; and 1 + 43/24 draws.
const THREE_HEADS: &str =
    "quarters ~ uniform(3); quarters := quarters + 1; while tosses < 3 { tosses := tosses + 1; heads ~ uniform(4); observe heads < quarters; } return quarters;";

// Throws of a die until the last of 62 squares: linear equations, solved in fractions.
const SNAKES_AND_LADDERS: &str =
    "while square < 62 { die ~ uniform(6); if square + die + 1 <= 62 { square := square + die + 1; } die := 0; if square = 1 { square := 38; } if square = 4 { square := 14; } if square = 9 { square := 31; } if square = 16 { square := 6; } if square = 21 { square := 42; } if square = 36 { square := 44; } if square = 47 { square := 26; } if square = 49 { square := 11; } if square = 56 { square := 53; } } return square;";

// Nothing is drawn in a loop that goes on for ever with 1/2: a round in which it does fails no more, so 2 rounds are begun.
const HALF_FOREVER: &str = "x ~ uniform(2); while x = 1 { skip; } observe false; return x;";

// It never fails, and never ends.
const FOREVER: &str = "while true { x ~ uniform(2); } return x;";

// Every round fails.
const NEVER: &str = "x ~ uniform(2); observe false; return x;";

struct Case {
    text: &'static str,
    draws: Pair,
    turns: Pair,
}

const CASES: [Case; 6] = [
    Case {
        text: EVEN_DIE,
        draws: (2, 1),
        turns: (0, 1),
    },
    Case {
        text: THIRD,
        draws: (1, 1),
        turns: (0, 1),
    },
    Case {
        text: COIN,
        draws: (2, 1),
        turns: (2, 1),
    },
    Case {
        text: NESTED,
        draws: (0, 1),
        turns: (12, 1),
    },
    Case {
        text: THREE_HEADS,
        draws: (134, 9),
        turns: (86, 9),
    },
    Case {
        text: SNAKES_AND_LADDERS,
        draws: (
            1024124749239263525911039673187893747,
            39484396786960194023358762331511664,
        ),
        turns: (
            1024124749239263525911039673187893747,
            39484396786960194023358762331511664,
        ),
    },
];

fn count_of(alloc: Global, what: Counted, text: &str) -> Option<Result<Count, BitsError>> {
    Some(count_in_the_limit(alloc, what, &program(alloc, text)?))
}

fn counts(alloc: Global, what: Counted, text: &str, want: Pair) -> bool {
    match &count_of(alloc, what, text) {
        Some(count) => comes_to(count, want),
        None => false,
    }
}

fn is_unbounded(alloc: Global, what: Counted, text: &str) -> bool {
    match &count_of(alloc, what, text) {
        Some(count) => has_no_bound(count),
        None => false,
    }
}

#[test]
fn expected_draws_and_turns(rt: HostRuntime) -> Result<(), Fail> {
    for case in &CASES {
        assert!(rt; counts(rt.alloc(), Counted::Draws, case.text, case.draws));
        assert!(rt; counts(rt.alloc(), Counted::Turns, case.text, case.turns));
    }
    Ok(())
}

#[test]
fn turns_without_bound(rt: HostRuntime) -> Result<(), Fail> {
    assert!(rt; is_unbounded(rt.alloc(), Counted::Turns, HALF_FOREVER));
    assert!(rt; is_unbounded(rt.alloc(), Counted::Turns, FOREVER));
    assert!(rt; is_unbounded(rt.alloc(), Counted::Draws, FOREVER));
    assert!(rt; is_unbounded(rt.alloc(), Counted::Draws, NEVER));
    assert!(rt; counts(rt.alloc(), Counted::Turns, NEVER, (0, 1)));
    assert!(rt; counts(rt.alloc(), Counted::Draws, HALF_FOREVER, (2, 1)));
    Ok(())
}
