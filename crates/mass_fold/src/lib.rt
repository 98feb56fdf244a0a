//! Exact masses of a program's outcomes, by tables of states that are merged at each point, and the expected bits of the draws on
//! the way.
//!
//! Proved: `mass` gives exactly the masses above 0, in lowest terms, outcomes ascending (`rows`). But for want of memory it
//! refuses them only for a cause that holds (`refused`): the width is 2^128 or more, a point has more than 65,536 states, or all
//! rounds fail and have no limit. `round_bits` gives the bits that the draws of one round read on average. Law: the rows of
//! `mass` are what the strings of bits of a run weigh (`masses_are_weighed`).
//!
//! No clause says that a refusal comes where its cause holds: a program of greater width may have its masses all the same. Nor
//! that memory or the stack suffices, nor how long a call takes, which grows with the states and with the limit of turns. Callers
//! have to hand in limits in range. `round` is for tests and for users of the crate. The other calls are single steps, for the
//! crates above.
#![tactic(auto)]

mod attempts;
mod bits;
mod body;
pub mod choosing;
mod draws;
mod ended;
mod error;
mod fold;
mod laws;
mod masses;
mod meter;
mod ordered;
mod outcomes;
mod rounds;
mod rows;
mod state;
mod steps;
mod table;

pub use attempts::Attempts;
pub use bits::round_bits;
pub use draws::scale;
pub use ended::{Ended, Gone};
pub use error::MassError;
pub use fold::Fold;
pub use laws::{masses_are_weighed, masses_have_one_list};
pub use masses::{mass, round};
pub use ordered::is_ordered;
pub use outcomes::{add_ended, add_results, outcome};
pub use rounds::{over_rest, repeated};
pub use rows::{FracRows, Round};
pub use state::State;
pub use steps::{assign, end_all, merge, split};
pub use table::{MOST_STATES, Table};
