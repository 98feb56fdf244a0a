// The tests of programs that are settled in wide fractions.

use crate::programs::program;
use std::alloc::Global;
use std::test::Fail;
use wide_fold::{WideEnded, WideFoldError, WideTable, settle_program};
use wide_numbers::Wide;

// It comes to 210 with the probability (2^70 - 1)/(2^210 - 1), which is 1/(2^140 + 2^70 + 1).
const RUIN: &str =
    "x := 70; while x > 0 and x < 210 { choice 1/3 { x := x + 1; } or { x := x - 1; } } return x;";

// The digits of 2^140 + 2^70 + 1, the least first.
const DIGITS: &[u8] = &[
    1, 0, 2, 7, 2, 4, 5, 0, 0, 0, 4, 2, 1, 6, 6, 3, 8, 9, 2, 6, 1, 7, 4, 3, 6, 4, 9, 3, 6, 1, 8, 0,
    9, 4, 7, 5, 6, 9, 7, 3, 9, 3, 1,
];

fn is_written(alloc: Global, number: &Wide, digits: &[u8]) -> bool {
    match number.digits(alloc) {
        Ok(found) => found.as_slice() == digits,
        Err(_) => false,
    }
}

fn settled(alloc: Global, text: &str) -> Option<Result<(WideTable, WideEnded), WideFoldError>> {
    Some(settle_program(alloc, &program(alloc, text)?))
}

// Whether two states are left: the second, with the value 210, has the weight of 1 over these digits.
fn is_ruin(alloc: Global, table: &WideTable, ended: &WideEnded) -> bool {
    if table.states.len() != 2 || !ended.failed.num().is_zero() {
        return false;
    }
    for (state, weight) in &table.states {
        if matches!(state.values().first(), Some(210)) {
            return is_written(alloc, weight.num(), &[1]) && is_written(alloc, weight.den(), DIGITS);
        }
    }
    false
}

fn settles_to_ruin(alloc: Global) -> bool {
    match &settled(alloc, RUIN) {
        Some(Ok((table, ended))) => is_ruin(alloc, table, ended),
        _ => false,
    }
}

#[test]
fn wide_masses_are_found(rt: HostRuntime) {
    assert!(rt; settles_to_ruin(rt.alloc()));
}
