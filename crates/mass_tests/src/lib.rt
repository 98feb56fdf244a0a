//! The tests of fractions, narrow fractions, units, rounds over pairs of them, visits of loops, draws' bits, masses, expected bits
//! under limits and without, expected rounds, draws and turns of loops, bounds, enclosed and exact masses, and what programs settle to
//! and their exact masses in wide fractions.
//!
//! They stand in a crate of their own and go by public calls, so none of the crates that they test is proved once more with its
//! tests. They promise nothing: the fractions that are expected are written out in them, worked by hand or by another program.
//! They show what no clause says: that programs have an answer and are not refused, above all those with loops by `exact` and by
//! `cost_in_the_limit`, `rounds_in_the_limit` and `count_in_the_limit`.
#![tactic(auto)]

#[cfg(test)]
mod bounds;
#[cfg(test)]
mod costs;
#[cfg(test)]
mod enclosing;
#[cfg(test)]
mod exact_masses;
#[cfg(test)]
mod fractions;
#[cfg(test)]
mod masses;
#[cfg(test)]
mod narrow;
#[cfg(test)]
mod pairs;
#[cfg(test)]
mod programs;
#[cfg(test)]
mod rows;
#[cfg(test)]
mod undecided_bits;
#[cfg(test)]
mod units;
#[cfg(test)]
mod unlimited_bits;
#[cfg(test)]
mod unlimited_counts;
#[cfg(test)]
mod unlimited_rounds;
#[cfg(test)]
mod visits;
#[cfg(test)]
mod wide_exact;
#[cfg(test)]
mod wide_settling;
