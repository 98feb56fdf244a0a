//! Uses of runs and of the outside by public calls, each with what it promises, and the tests of both, of boards, audits,
//! tallies, hunts and lines.
//!
//! Proved: a run that is fed in two pieces, forked, begun anew or put where another stands goes on as its bits say (`fed_in_two`,
//! `go_both_ways`, `run_anew`, `go_on_from`); and a run that is tried again where memory had run out answers as one run does
//! (`sample_again`). So the public clauses suffice for such callers.
//!
//! The tests stand here so that none of the crates that they test is proved once more with its tests. What is expected is written
//! out in them. No clause says that memory suffices for a use; where it does not, `untouched` says what stands.
#![tactic(auto)]

#[cfg(test)]
mod auditing;
#[cfg(test)]
mod bidding;
#[cfg(test)]
mod claiming;
mod feeding;
#[cfg(test)]
mod hunting;
mod in_memory;
#[cfg(test)]
mod lending;
#[cfg(test)]
mod lines;
#[cfg(test)]
mod outside;
#[cfg(test)]
mod programs;
mod ranges;
mod retrying;
#[cfg(test)]
mod sampling;
#[cfg(test)]
mod tallying;

pub use feeding::{fed_in_two, go_both_ways, go_on_from, run_anew};
pub use in_memory::{put_on_a_vector, two_files};
pub use ranges::{FAR, streams};
pub use retrying::sample_again;
