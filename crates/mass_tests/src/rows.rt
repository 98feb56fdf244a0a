// Fractions, counts and rows of masses, beside those that are wanted.

use bits_fold::{BitsError, Count};
use gcl_core::Outcome;
use mass_fold::FracRows;
use numbers::Frac;

// A numerator over a denominator.
pub(crate) type Pair = (u128, u128);

pub(crate) type Rows = &'static [(Outcome, Pair)];

pub(crate) fn is(f: &Frac, pair: Pair) -> bool {
    f.num() == pair.0 && f.den() == pair.1
}

// Whether so many are expected.
pub(crate) fn comes_to(count: &Result<Count, BitsError>, want: Pair) -> bool {
    match count {
        Ok(Count::Expected(count)) => is(count, want),
        _ => false,
    }
}

pub(crate) fn has_no_bound(count: &Result<Count, BitsError>) -> bool {
    match count {
        Ok(Count::Unbounded) => true,
        _ => false,
    }
}

pub(crate) fn has_rows(rows: &FracRows, want: Rows) -> bool {
    if rows.count() != want.len() {
        return false;
    }
    for i in 0..want.len() {
        let (x, mass) = rows.get(i);
        let (outcome, pair) = want[i];
        if *x != outcome || !is(mass, pair) {
            return false;
        }
    }
    true
}
