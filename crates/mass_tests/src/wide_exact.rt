// Exact masses of which some number has more than 128 bits, worked by a solver in fractions.

use crate::programs::program;
use exact_fold::ExactError;
use gcl_core::{Fault, Outcome};
use std::alloc::Global;
use std::test::Fail;
use wide_masses::{Masses, WideMasses, exact};
use wide_numbers::{Wide, WideFraction};

// A numerator over a denominator, in decimal digits.
type Digits = (&'static str, &'static str);

// A program, its rows, and what runs for ever.
struct Case {
    text: &'static str,
    rows: &'static [(Outcome, Digits)],
    endless: Digits,
}

// It comes to 131 with the probability 1/(2^131 - 1).
const RUIN: Case = Case {
    text: "x := 1; while x > 0 and x < 131 { choice 1/3 { x := x + 1; } or { x := x - 1; } } return x;",
    rows: &[
        (
            Outcome::Value(0),
            (
                "2722258935367507707706996859454145691646",
                "2722258935367507707706996859454145691647",
            ),
        ),
        (
            Outcome::Value(131),
            ("1", "2722258935367507707706996859454145691647"),
        ),
    ],
    endless: ("0", "1"),
};

// The ruin, which is never at 5.
const NEVER_PASSES: &str =
    "x := 1; while x > 0 and x < 131 { choice 1/3 { x := x + 1; } or { x := x - 1; } } observe x = 5; return x;";

// The ruin in one side of a choice.
const IN_A_CHOICE: Case = Case {
    text: "choice 1/2 { x := 1; while x > 0 and x < 131 { choice 1/3 { x := x + 1; } or { x := x - 1; } } } or { } return x;",
    rows: &[
        (
            Outcome::Value(0),
            (
                "5444517870735015415413993718908291383293",
                "5444517870735015415413993718908291383294",
            ),
        ),
        (
            Outcome::Value(131),
            ("1", "5444517870735015415413993718908291383294"),
        ),
    ],
    endless: ("0", "1"),
};

// The ruin in a loop, which goes on with 1/2 behind each that comes to 131.
const IN_A_LOOP: Case = Case {
    text: "while y = 0 { x := 1; while x > 0 and x < 131 { choice 1/3 { x := x + 1; } or { x := x - 1; } }
        if x = 0 { y := 1; } else { choice 1/2 { y := 2; } or { } } } return y;",
    rows: &[
        (
            Outcome::Value(1),
            (
                "5444517870735015415413993718908291383292",
                "5444517870735015415413993718908291383293",
            ),
        ),
        (
            Outcome::Value(2),
            ("1", "5444517870735015415413993718908291383293"),
        ),
    ],
    endless: ("0", "1"),
};

// One statement with three choices of 62 bits each.
const CHOICES: Case = Case {
    text: "if x = 0 { choice 1/4611686018427387847 { x := 1; } or { x := 2; } choice 1/4611686018427387817 { y := 1; } or { y := 2; }
        choice 1/4611686018427387787 { z := 1; } or { z := 2; } } else { } return x * y * z;",
    rows: &[
        (
            Outcome::Value(1),
            (
                "1",
                "98079714615416881384078099339811203072338023935079032213",
            ),
        ),
        (
            Outcome::Value(2),
            (
                "13835058055282163448",
                "98079714615416881384078099339811203072338023935079032213",
            ),
        ),
        (
            Outcome::Value(4),
            (
                "63802943797675959464412521163795748668",
                "98079714615416881384078099339811203072338023935079032213",
            ),
        ),
        (
            Outcome::Value(8),
            (
                "98079714615416881320275155542135243594090444716001120096",
                "98079714615416881384078099339811203072338023935079032213",
            ),
        ),
    ],
    endless: ("0", "1"),
};

// The guard of a loop is a fault at 0.
const GUARD: Case = Case {
    text: "x := 3; while 6 / x > 0 { choice 17592186044423/35184372088891 { x := x + 1; } or { x := x - 1; } } return x;",
    rows: &[
        (
            Outcome::Value(7),
            (
                "88928324534698622215311269016920848072995966585811675564477584881112923700867597",
                "207499423915358333069087132029732711564708204613506861726398248183318170711005133",
            ),
        ),
        (
            Outcome::Fault(Fault::ZeroDivisor),
            (
                "118571099380659710853775863012811863491712238027695186161920663302205247010137536",
                "207499423915358333069087132029732711564708204613506861726398248183318170711005133",
            ),
        ),
    ],
    endless: ("0", "1"),
};

// The digits of a number, the least first, are those of the text, the greatest first.
fn is_written(alloc: Global, number: &Wide, text: &str) -> bool {
    let Ok(digits) = number.digits(alloc) else {
        return false;
    };
    let text = text.as_bytes();
    if digits.is_empty() {
        return text == b"0".as_slice();
    }
    if digits.len() != text.len() {
        return false;
    }
    for i in 0..text.len() {
        if b'0' + digits[text.len() - 1 - i] != text[i] {
            return false;
        }
    }
    true
}

fn is(alloc: Global, f: &WideFraction, want: Digits) -> bool {
    is_written(alloc, f.num(), want.0) && is_written(alloc, f.den(), want.1)
}

fn has_rows(alloc: Global, masses: &WideMasses, want: &[(Outcome, Digits)]) -> bool {
    if masses.rows.count() != want.len() {
        return false;
    }
    for i in 0..want.len() {
        let (x, mass) = masses.rows.get(i);
        let (outcome, digits) = want[i];
        if *x != outcome || !is(alloc, mass, digits) {
            return false;
        }
    }
    true
}

fn found(alloc: Global, text: &str) -> Option<Result<Masses, ExactError>> {
    Some(exact(alloc, &program(alloc, text)?))
}

fn is_as_told(alloc: Global, case: &Case) -> bool {
    match &found(alloc, case.text) {
        Some(Ok(Masses::Wide(masses))) => {
            has_rows(alloc, masses, case.rows) && is(alloc, &masses.endless, case.endless)
        }
        _ => false,
    }
}

fn is_refused(alloc: Global, text: &str, error: ExactError) -> bool {
    match &found(alloc, text) {
        Some(Err(found)) => *found == error,
        _ => false,
    }
}

#[test]
fn a_ruin(rt: HostRuntime) {
    assert!(rt; is_as_told(rt.alloc(), &RUIN));
}

#[test]
fn rounds_that_all_fail_in_wide_fractions(rt: HostRuntime) {
    assert!(rt; is_refused(rt.alloc(), NEVER_PASSES, ExactError::AllFailed));
}

#[test]
fn a_ruin_in_a_choice(rt: HostRuntime) {
    assert!(rt; is_as_told(rt.alloc(), &IN_A_CHOICE));
}

#[test]
fn a_ruin_in_a_loop(rt: HostRuntime) {
    assert!(rt; is_as_told(rt.alloc(), &IN_A_LOOP));
}

#[test]
fn choices_in_one_statement(rt: HostRuntime) {
    assert!(rt; is_as_told(rt.alloc(), &CHOICES));
}

#[test]
fn a_guard_that_is_a_fault(rt: HostRuntime) {
    assert!(rt; is_as_told(rt.alloc(), &GUARD));
}

#[test]
fn narrow_masses_stay_narrow(rt: HostRuntime) {
    let narrow = found(rt.alloc(), "x ~ uniform(3); return x;");
    assert!(rt; matches!(narrow, Some(Ok(Masses::Narrow(_)))));
}
