//! The tests of formulas, draws, trees on bits, code and rolls.
//!
//! They stand in a crate of their own and go by public calls, so none of the crates that they test is proved once more with its
//! tests. They promise nothing: the values, listings and bits that are expected are written out in them.
#![tactic(auto)]

#[cfg(test)]
mod code;
#[cfg(test)]
mod draws;
#[cfg(test)]
mod formulas;
#[cfg(test)]
mod lending;
#[cfg(test)]
mod programs;
#[cfg(test)]
mod rolled_streams;
#[cfg(test)]
mod rolling;
#[cfg(test)]
mod trees;
#[cfg(test)]
mod weighted;
