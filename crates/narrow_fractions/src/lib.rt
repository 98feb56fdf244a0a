//! Narrow fractions by their remainders: where elimination modulo several numbers, and Euclid's algorithm, come to no fraction of two
//! numbers below a bound, no table of fractions that balances has one.
//!
//! Proved: `narrow_fraction` gives the one fraction of two numbers below a bound with a remainder, or none where there is none. And
//! the laws that `exact` may be refused by: a number with the remainders that elimination finds of an unknown is divided down to
//! the bound, and what is met there is the only narrow value that the unknown can have, or there is none
//! (`nothing_narrow_is_left`). The remainders of the division may be given, and checked modulo each number
//! (`remainders_may_be_given`); five primes have nothing in common, and are wide enough for 128 bits (`five_primes_are_apart`); an
//! elimination step merges rows entry by entry, in whatever order (`rows_may_be_merged`). At most one narrow fraction has a
//! remainder (`one_fraction_has_a_remainder`).
//!
//! No call takes memory. No clause is of elimination as code, which `visit_finder` has.
#![tactic(auto)]

mod fraction;
mod refusing;

pub use fraction::{narrow_fraction, one_fraction_has_a_remainder, remainders_may_be_given};
pub use refusing::{five_primes_are_apart, nothing_narrow_is_left, rows_may_be_merged};
