//! A round of a program over pairs of units, by merged tables: each state has units at least, with products rounded down, and units at
//! most, with products rounded up. After each statement, wherever it stands, all units are doubled as often as what has not failed still
//! stays within 2^120, so that they stay small beside it however unlikely the evidence is. What fails is counted nowhere.
//!
//! Proved: the mass of any set of outcomes lies between what its units at least are beside those that all others have at most, and the
//! reverse (`between`), for every greater limit of turns too, where what ran out of turns counts for no outcome at least and for all at
//! most. Where some outcome has a unit at least, a round fails with probability below 1 (`passes`). The units are those of `scaled_law`
//! (`round`).
//!
//! And `enclose_in_pairs` makes rows of bounds of them: each mass lies between its two bounds, and all outcomes without a row have together at
//! most the bound of the others (`enclose`), which is at most 1 (`most`). Two bounds are no further apart than that and a unit of 2^-120
//! (`close`). Rows are of possible outcomes, ascending (`ordered`).
//!
//! Under a limit of attempts `enclose_under_attempts` makes such rows of a round without that limit, where the outcome of the limit is shown to
//! weigh one part of 2^-120 at most: by the bits that a round may read, all branches together, and by how many units pass of a whole, which the
//! walk knows, since it counts how often units were doubled. Each lower bound is then by such a part less, and the bound of the others by one
//! more (`enclose`).
//!
//! Draws take so many attempts at most, or as many as they need; what no attempt decides has the outcome of that limit, at least and at most.
//! How units go at a draw is told by `Odds`, by which `enclose_fold` draws, too. Runs take as many rounds as they need.
//!
//! No clause says when a call is refused, how narrow bounds are, that memory or the stack suffices, or how long a call takes, which grows with
//! the states and with the limit of turns.
#![tactic(auto)]

mod body;
mod bounding;
mod draws;
mod enclosing;
mod ended;
mod error;
mod fold;
mod growing;
mod limiting;
mod listing;
mod longest;
mod odds;
mod outcomes;
mod pair;
mod parts;
mod rounds;
mod stack;
mod stacking;
mod stepping;
mod steps;
mod sums;
mod table;
mod tables;
mod walk;
mod walking;

pub use enclosing::enclose_in_pairs;
pub use error::PairsError;
pub use limiting::enclose_under_attempts;
pub use odds::Odds;
pub use rounds::{Ends, round_in_pairs};
