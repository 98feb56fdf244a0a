// Bounds from one round that is rounded down, worked in whole numbers of units of 2^-120.

ghost use Rattle.std.specs.Prelude.{◌≡◌, true, IfSome};
ghost use Rattle.mass_fold.specs.Refused.{IsLimit};

use bounds_law::BoundRows;
use enclose_fold::{EncloseError, enclose};
use gcl_core::{Limit, Outcome};
use gcl_text::check_text;
use numbers::Frac;
use std::alloc::Global;

const TWO_THIRDS: &str = "choice 2/3 { x := 1; } or { x := 2; } return x;";

const TWO_COINS: &str = "x ~ uniform(2); y ~ uniform(2); observe x = 1 or y = 1; return x + y;";

const GEOMETRIC: &str =
    "go := 1; while go = 1 { choice 1/2 { x := x + 1; } or { go := 0; } } return x;";

const IMPOSSIBLE: &str = "observe 1 = 2; return 0;";

const A_THIRD_IS_LOST: &str = "x ~ uniform(3); observe x = 3; return x;";

const UNLIKELY: &str =
    "x := 1; while n < 121 and x = 1 { n := n + 1; x ~ uniform(2); } observe x = 1; return n;";

const DIE_GIVEN_EVEN: &str = "x ~ uniform(6); x := x + 1; observe x % 2 = 0; return x;";

const WHOLE: u128 = 1 << 120;

// A program of thirteen components, each of which fails with 1/1000: whether one does.
const COMPONENTS: &str =
    "i := 0; while i < 13 { choice 1/1000 { x := x + 1; } or { skip; } i := i + 1; } if x > 0 { x := 1; } else { skip; } return x;";

// A numerator over a denominator.
type Pair = (u128, u128);

// A third of the whole, rounded down, and with what was lost.
const THIRD: Pair = (
    221_537_999_297_485_978_817_301_176_713_390_761,
    664_613_997_892_457_936_451_903_530_140_172_288,
);

const MORE_THAN_THIRD: Pair = (443_075_998_594_971_957_634_602_353_426_781_531, WHOLE);

type Rows = &'static [(Outcome, Pair, Pair)];

// A program, its limits of turns, attempts and rounds, whether the bounds are for all turns, its rows, and what others have at most.
struct Case {
    text: &'static str,
    turns: u64,
    attempts: Option<u64>,
    rounds: Option<u64>,
    all_turns: bool,
    want: Result<(Rows, Pair), EncloseError>,
}

// A side of a die has q units, 2^120 = 6q + 4, and the whole is 3q + 4, so 4 units are lost. Of two coins a round fails with 1/4. An
// attempt at 2/3 decides with 3/4. The components lose 91 units in their 13 turns. Of three thirds a unit is lost, and so is the half of a
// unit with which 121 coins are all heads.
const CASES: [Case; 12] = [
    Case {
        text: DIE_GIVEN_EVEN,
        turns: 30,
        attempts: None,
        rounds: None,
        all_turns: false,
        want: Ok((
            &[
                (Outcome::Value(2), THIRD, MORE_THAN_THIRD),
                (Outcome::Value(4), THIRD, MORE_THAN_THIRD),
                (Outcome::Value(6), THIRD, MORE_THAN_THIRD),
            ],
            (1, 166_153_499_473_114_484_112_975_882_535_043_072),
        )),
    },
    Case {
        text: TWO_COINS,
        turns: 30,
        attempts: None,
        rounds: Some(2),
        all_turns: false,
        want: Ok((
            &[
                (Outcome::Value(1), (5, 8), (5, 8)),
                (Outcome::Value(2), (5, 16), (5, 16)),
                (Outcome::Limit(Limit::Rounds), (1, 16), (1, 16)),
            ],
            (0, 1),
        )),
    },
    Case {
        text: TWO_THIRDS,
        turns: 30,
        attempts: Some(1),
        rounds: None,
        all_turns: false,
        want: Ok((
            &[
                (Outcome::Value(1), (1, 2), (1, 2)),
                (Outcome::Value(2), (1, 4), (1, 4)),
                (Outcome::Limit(Limit::Attempts), (1, 4), (1, 4)),
            ],
            (0, 1),
        )),
    },
    Case {
        text: IMPOSSIBLE,
        turns: 30,
        attempts: None,
        rounds: None,
        all_turns: false,
        want: Err(EncloseError::AllFailed),
    },
    Case {
        text: A_THIRD_IS_LOST,
        turns: 30,
        attempts: None,
        rounds: None,
        all_turns: false,
        want: Err(EncloseError::TooUnlikely),
    },
    Case {
        text: UNLIKELY,
        turns: 121,
        attempts: None,
        rounds: None,
        all_turns: false,
        want: Err(EncloseError::TooUnlikely),
    },
    Case {
        text: UNLIKELY,
        turns: 120,
        attempts: None,
        rounds: None,
        all_turns: false,
        want: Ok((&[(Outcome::Limit(Limit::Turns), (1, 1), (1, 1))], (0, 1))),
    },
    Case {
        text: IMPOSSIBLE,
        turns: 30,
        attempts: None,
        rounds: Some(1_000_000_000),
        all_turns: false,
        want: Ok((&[(Outcome::Limit(Limit::Rounds), (1, 1), (1, 1))], (0, 1))),
    },
    Case {
        text: GEOMETRIC,
        turns: 0,
        attempts: None,
        rounds: None,
        all_turns: false,
        want: Ok((&[(Outcome::Limit(Limit::Turns), (1, 1), (1, 1))], (0, 1))),
    },
    Case {
        text: GEOMETRIC,
        turns: 0,
        attempts: None,
        rounds: None,
        all_turns: true,
        want: Ok((&[], (1, 1))),
    },
    Case {
        text: GEOMETRIC,
        turns: 2,
        attempts: None,
        rounds: None,
        all_turns: true,
        want: Ok((
            &[
                (Outcome::Value(0), (1, 2), (3, 4)),
                (Outcome::Value(1), (1, 4), (1, 2)),
            ],
            (1, 4),
        )),
    },
    Case {
        text: COMPONENTS,
        turns: 13,
        attempts: None,
        rounds: None,
        all_turns: false,
        want: Ok((
            &[
                (
                    Outcome::Value(0),
                    (1_312_051_332_412_865_974_739_839_369_917_713_573, WHOLE),
                    (
                        5_125_200_517_237_757_713_827_497_538_741_069,
                        5_192_296_858_534_827_628_530_496_329_220_096,
                    ),
                ),
                (
                    Outcome::Value(1),
                    (
                        67_096_341_297_069_914_702_998_790_479_027,
                        5_192_296_858_534_827_628_530_496_329_220_096,
                    ),
                    (17_176_663_372_049_898_163_967_690_362_631_003, WHOLE),
                ),
            ],
            (91, WHOLE),
        )),
    },
];

fn is(f: &Frac, pair: Pair) -> bool {
    f.num() == pair.0 && f.den() == pair.1
}

fn has_rows(rows: &BoundRows, want: Rows) -> bool {
    if rows.count() != want.len() {
        return false;
    }
    for i in 0..want.len() {
        let (x, low, high) = rows.get(i);
        let (outcome, least, most) = want[i];
        if *x != outcome || !is(low, least) || !is(high, most) {
            return false;
        }
    }
    true
}

// Whether it is none, or one that may be asked for.
fn is_limit(count: Option<u64>) -> bool
    ensures { result ≡ true → IfSome count IsLimit }
{
    match count {
        None => true,
        Some(count) => count >= 1 && count <= 1_000_000_000,
    }
}

fn is_met(alloc: Global, case: &Case) -> bool {
    if case.turns > 1_000_000_000 || !is_limit(case.attempts) || !is_limit(case.rounds) {
        return false;
    }
    match check_text(alloc, case.text.as_bytes()) {
        Err(_) => false,
        Ok(p) => match enclose(
            alloc,
            &p,
            case.turns,
            case.attempts,
            case.rounds,
            case.all_turns,
        ) {
            Ok(b) => match case.want {
                Ok((rows, other)) => has_rows(&b.rows, rows) && is(&b.other, other),
                Err(_) => false,
            },
            Err(error) => match case.want {
                Ok(_) => false,
                Err(want) => error == want,
            },
        },
    }
}

fn all_are_met(alloc: Global, cases: &[Case]) -> bool {
    for case in cases {
        if !is_met(alloc, case) {
            return false;
        }
    }
    true
}

#[test]
fn bounds_are_those_worked_by_hand(rt: HostRuntime) {
    assert!(rt; all_are_met(rt.alloc(), &CASES));
}

// Each value below 120 has 2^-1, 2^-2, .. 2^-120 of the whole, and one unit is lost.
fn ends_where_nothing_is_left(alloc: Global) -> bool {
    match check_text(alloc, GEOMETRIC.as_bytes()) {
        Err(_) => false,
        Ok(p) => match enclose(alloc, &p, 1_000_000_000, None, None, false) {
            Err(_) => false,
            Ok(b) => {
                if b.rows.count() != 120 {
                    return false;
                }
                let (x, low, high) = b.rows.get(119);
                *x == Outcome::Value(119)
                    && is(low, (1, WHOLE))
                    && is(high, (1, WHOLE / 2))
                    && is(&b.other, (1, WHOLE))
            }
        },
    }
}

#[test]
fn a_loop_ends_where_nothing_is_left(rt: HostRuntime) {
    assert!(rt; ends_where_nothing_is_left(rt.alloc()));
}
