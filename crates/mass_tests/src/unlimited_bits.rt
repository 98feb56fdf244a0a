// The expected bits of programs where nothing is limited.

use crate::programs::program;
use crate::rows::{Pair, comes_to, has_no_bound};
use bits_fold::{BitsError, Count, cost_in_the_limit};
use std::alloc::Global;
use std::test::Fail;

const ALARM: &str =
    "choice 1/1000 { burglary := 1; } or { } choice 1/500 { earthquake := 1; } or { } if burglary = 1 { if earthquake = 1 { choice 19/20 { alarm := 1; } or { } } else { choice 47/50 { alarm := 1; } or { } } } else { if earthquake = 1 { choice 29/100 { alarm := 1; } or { } } else { choice 1/1000 { alarm := 1; } or { } } } if alarm = 1 { choice 9/10 { john := 1; } or { } choice 7/10 { mary := 1; } or { } } else { choice 1/20 { john := 1; } or { } choice 1/100 { mary := 1; } or { } } observe john = 1 and mary = 1; return burglary;";

const COIN: &str = "heads ~ uniform(2); return heads;";

const COUPONS: &str =
    "while a + b + c < 3 { choose { 3: { if a = 0 { a := 1; last := 1; } } | 2: { if b = 0 { b := 1; last := 2; } } | 1: { if c = 0 { c := 1; last := 3; } } } } return last;";

const COUPONS_OF_TEN: &str =
    "while faces < 10 { face ~ uniform(10); if face >= faces { faces := faces + 1; } } return faces;";

const CRAPS: &str =
    "a ~ uniform(6); b ~ uniform(6); point := a + b + 2; if point = 7 or point = 11 { won := 1; } else { if point > 3 and point < 12 { while sum != point and sum != 7 { a ~ uniform(6); b ~ uniform(6); sum := a + b + 2; } if sum = point { won := 1; } } } return won;";

const DIE: &str = "face ~ uniform(6); return face + 1;";

const DOORS: &str =
    "door := 2; while door = 2 { door ~ uniform(3); while door = 0 { skip; } } return door;";

const EVEN_DIE: &str = "face ~ uniform(6); observe face % 2 = 1; return face + 1;";

const GAMBLER: &str =
    "coins := 6; while coins > 0 and coins < 11 { choice 1/3 { coins := coins + 1; } or { coins := coins - 1; } } return coins;";

const HERMAN_OF_FIVE: &str =
    "tokens := 5; while tokens > 1 { if a = e { v ~ uniform(2); } else { v := e; } if b = a { w ~ uniform(2); } else { w := a; } if c = b { x ~ uniform(2); } else { x := b; } if d = c { y ~ uniform(2); } else { y := c; } if e = d { z ~ uniform(2); } else { z := d; } a := v; b := w; c := x; d := y; e := z; tokens := (a + e + 1) % 2 + (b + a + 1) % 2 + (c + b + 1) % 2 + (d + c + 1) % 2 + (e + d + 1) % 2; } return tokens;";

const LEADER_OF_FOUR: &str =
    "while found = 0 { a ~ uniform(3); b ~ uniform(3); c ~ uniform(3); d ~ uniform(3); if a != b and a != c and a != d { found := 1; } if b != a and b != c and b != d { found := 1; } if c != a and c != b and c != d { found := 1; } if d != a and d != b and d != c { found := 1; } } return found;";

const LOADED_COIN: &str = "choice 3/8 { heads := 1; } or { heads := 0; } return heads;";

const LOADED_DIE: &str =
    "choose { 1: { face := 1; } | 1: { face := 2; } | 1: { face := 3; } | 1: { face := 4; } | 1: { face := 5; } | 3: { face := 6; } } return face;";

const MATCH: &str =
    "while a < 2 and b < 2 { lead := 0; while lead > -2 and lead < 2 { choice 2/3 { lead := lead + 1; } or { lead := lead - 1; } } if lead = 2 { a := a + 1; } else { b := b + 1; } } return a / 2;";

const MONTY_HALL: &str =
    "prize ~ uniform(3); pick ~ uniform(3); if pick = prize { goat ~ uniform(2); opened := (pick + 1 + goat) % 3; } else { opened := 3 - pick - prize; } other := 3 - pick - opened; if other = prize { wins := 1; } return wins;";

const NESTED: &str =
    "i := 0; while i < 2 { i := i + 1; j := 0; while j < 2 { j := j + 1; t := t + 1; } } return t;";

const OVERFLOW: &str = "x := 9223372036854775807; x := x + 1; observe x = 0; return x;";

const QUEUE: &str =
    "open := 1; while open = 1 { choose { 1: { open := 0; } | 1: { if waiting < 2 { waiting := waiting + 1; } } | 2: { if waiting > 0 { waiting := waiting - 1; } } } } return waiting;";

const RUIN: &str =
    "coins := 2; while coins > 0 and coins < 4 { choice 1/3 { coins := coins + 1; } or { coins := coins - 1; } } return coins;";

const THREE_HEADS: &str =
    "quarters ~ uniform(3); quarters := quarters + 1; while tosses < 3 { tosses := tosses + 1; heads ~ uniform(4); observe heads < quarters; } return quarters;";

const TWO_DICE: &str = "a ~ uniform(6); b ~ uniform(6); observe a + 1 + (b + 1) = 8; return a + 1;";

const TWO_THIRDS: &str = "choice 2/3 { x := 1; } or { x := 2; } return x;";

const VON_NEUMANN: &str =
    "choice 1/4 { a := 1; } or { } choice 1/4 { b := 1; } or { } observe a != b; return a;";

const WALK: &str =
    "while step < 4 { step := step + 1; choice 1/2 { place := place + 1; } or { if place > 0 { place := place - 1; } } } return place;";

struct Case {
    text: &'static str,
    want: Pair,
}

const CASES: [Case; 24] = [
    Case {
        text: ALARM,
        want: (17199282856720, 2084100239),
    },
    Case {
        text: COIN,
        want: (1, 1),
    },
    Case {
        text: COUPONS,
        want: (73, 3),
    },
    Case {
        text: COUPONS_OF_TEN,
        want: (22143, 140),
    },
    Case {
        text: CRAPS,
        want: (1114, 45),
    },
    Case {
        text: DIE,
        want: (11, 3),
    },
    Case {
        text: DOORS,
        want: (4, 1),
    },
    Case {
        text: EVEN_DIE,
        want: (22, 3),
    },
    Case {
        text: GAMBLER,
        want: (92712, 2047),
    },
    Case {
        text: HERMAN_OF_FIVE,
        want: (164, 15),
    },
    Case {
        text: LEADER_OF_FOUR,
        want: (72, 5),
    },
    Case {
        text: LOADED_COIN,
        want: (7, 4),
    },
    Case {
        text: LOADED_DIE,
        want: (11, 4),
    },
    Case {
        text: MATCH,
        want: (2088, 125),
    },
    Case {
        text: MONTY_HALL,
        want: (17, 3),
    },
    Case {
        text: NESTED,
        want: (0, 1),
    },
    Case {
        text: OVERFLOW,
        want: (0, 1),
    },
    Case {
        text: QUEUE,
        want: (6, 1),
    },
    Case {
        text: RUIN,
        want: (48, 5),
    },
    Case {
        text: THREE_HEADS,
        want: (100, 3),
    },
    Case {
        text: TWO_DICE,
        want: (264, 5),
    },
    Case {
        text: TWO_THIRDS,
        want: (2, 1),
    },
    Case {
        text: VON_NEUMANN,
        want: (8, 1),
    },
    Case {
        text: WALK,
        want: (4, 1),
    },
];

// Every round fails, and reads a bit.
const NEVER: &str = "x ~ uniform(2); observe x = 2; return x;";

// Every round fails, and reads nothing.
const NOTHING: &str = "observe 1 = 2; return 0;";

// A loop that goes round for ever, and reads a bit each time.
const FOREVER: &str =
    "while x = 0 { y ~ uniform(2); if y = 2 { x := 1; } else { skip; } } return x;";

// It does so where it comes to 1.
const LATER: &str =
    "while x < 2 { if x = 0 { x ~ uniform(2); } else { y ~ uniform(2); } } return x + y;";

// The loop inside does so, where the one outside comes to 1.
const INSIDE: &str =
    "while x < 2 { x ~ uniform(3); while x = 1 { y ~ uniform(2); } } return x + y;";

// The state that it is entered with does not come again.
const PASSED_BY: &str = "while x < 2 { y ~ uniform(2); x := 1; } return x + y;";

// It goes to and fro between two states, and the third turns into one of four that are never left.
const TO_AND_FRO: &str =
    "while x < 7 { if x = 0 { choose { 1: { x := 1; } | 1: { x := 3; } | 1: { x := 7; } } } else { y ~ uniform(3); if y > 0 { x := x % 4 + 1; } } } return x;";

// The coin is read, and then nothing.
const SILENT: &str = "x ~ uniform(2); while 1 = 1 { skip; } return x;";

// It is never left, and falls silent where the coin is 1.
const FALLS_SILENT: &str = "while x < 2 { if x = 0 { x ~ uniform(2); } else { skip; } } return x;";

// Two sides by numbers below a prime p = 2^61 - 1: a number is read on while its bits are all 0 or all 1, so an attempt reads 3 - 4/2^61
// bits, and the draw 3 - 1/p.
const BY_A_PRIME: &str = "choice 1/2305843009213693951 { x := 1; } or { x := 2; } return x;";

// The bits of three choices by primes are a fraction over the product of these, above 2^181.
const BY_THREE_PRIMES: &str =
    "choice 1/2305843009213693951 { } or { } choice 1/2305843009213693921 { } or { } choice 1/1152921504606846883 { } or { } return 0;";

const ONE_STATE_TOO_MANY: &str = "x ~ uniform(65537); return x % 2;";

const AS_MANY_STATES_AS_MAY_BE: &str = "x ~ uniform(65536); return x % 2;";

fn bits_of(alloc: Global, text: &str) -> Option<Result<Count, BitsError>> {
    Some(cost_in_the_limit(alloc, &program(alloc, text)?))
}

fn has_bits(alloc: Global, text: &str, want: Pair) -> bool {
    match &bits_of(alloc, text) {
        Some(count) => comes_to(count, want),
        None => false,
    }
}

fn is_unbounded(alloc: Global, text: &str) -> bool {
    match &bits_of(alloc, text) {
        Some(count) => has_no_bound(count),
        None => false,
    }
}

fn is_refused(alloc: Global, text: &str, want: BitsError) -> bool {
    match bits_of(alloc, text) {
        Some(Err(error)) => error == want,
        _ => false,
    }
}

// The place of the first case that is not as told.
fn first_wrong(alloc: Global, cases: &[Case]) -> usize {
    let mut i = 0usize;
    for case in cases {
        if !has_bits(alloc, case.text, case.want) {
            return i;
        }
        i = i.wrapping_add(1);
    }
    i
}

#[test]
fn expected_bits_of_programs_of_the_gallery(rt: HostRuntime) -> Result<(), Fail> {
    assert_eq!(rt; first_wrong(rt.alloc(), &CASES), 24);
    Ok(())
}

#[test]
fn rounds_and_loops_without_end(rt: HostRuntime) -> Result<(), Fail> {
    assert!(rt; has_bits(rt.alloc(), NOTHING, (0, 1)));
    assert!(rt; is_unbounded(rt.alloc(), NEVER));
    assert!(rt; is_unbounded(rt.alloc(), FOREVER));
    assert!(rt; is_unbounded(rt.alloc(), LATER));
    assert!(rt; is_unbounded(rt.alloc(), INSIDE));
    assert!(rt; is_unbounded(rt.alloc(), TO_AND_FRO));
    assert!(rt; is_unbounded(rt.alloc(), PASSED_BY));
    assert!(rt; has_bits(rt.alloc(), SILENT, (1, 1)));
    assert!(rt; has_bits(rt.alloc(), FALLS_SILENT, (2, 1)));
    Ok(())
}

#[test]
fn programs_without_loops_at_their_width_and_their_states(rt: HostRuntime) -> Result<(), Fail> {
    assert!(rt;
        has_bits(
            rt.alloc(),
            BY_A_PRIME,
            (6917529027641081852, 2305843009213693951)
        )
    );
    assert!(rt; is_refused(rt.alloc(), BY_THREE_PRIMES, BitsError::TooWide));
    assert!(rt; has_bits(rt.alloc(), AS_MANY_STATES_AS_MAY_BE, (16, 1)));
    assert!(rt; is_refused(rt.alloc(), ONE_STATE_TOO_MANY, BitsError::TooManyStates));
    Ok(())
}
