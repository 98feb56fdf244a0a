//! Bounds of a program's masses that hold for every greater limit of turns, without limits of attempts and of rounds.
//!
//! Proved: `bounds` gives exactly the values and faults that a round of so many turns comes to, each with its two bounds in
//! lowest terms (`rows`), and what every other has at most (`other`). At every greater limit of turns at which a round fails with
//! probability below 1 the masses lie within them (`hold`). They are refused only for a cause for which masses may be
//! (`refused`).
//!
//! No clause says that a refusal comes where its cause holds, that memory or the stack suffices, or how long a call takes. Callers have
//! to ask for at most 10^9 turns.
#![tactic(auto)]

mod bounding;
mod rising;

pub use bounding::bounds;
