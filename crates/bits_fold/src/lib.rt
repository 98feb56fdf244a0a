//! The expected bits of a run where nothing is limited, how many rounds it begins, and how many draws and turns of loops it makes, as exact
//! fractions. The expected visits of a loop are looked for, or a table from which it goes on counting for ever, and turns of the loop check
//! what was found.
//!
//! Proved: `cost_in_the_limit` answers what the expected bits under limits come to as all limits grow, or that they have no bound
//! (`answer`). But for want of memory a program is refused only for a cause that holds of its forgetful program (`refused`): without a
//! loop the width of its bits is 2^128 or more, or a point has more than 65,536 states; with a loop that is so at 256 turns, or some
//! run has not ended there. `rounds_in_the_limit` answers the same of the expected number of rounds, and is refused for the same causes.
//! `count_in_the_limit` answers the same of draws and of turns of loops; of its refusals nothing is said.
//!
//! So no clause says that loops which go on longer have an answer: a call that refused each of these as too wide would keep the
//! contract, and tests alone show that it does not. No clause says that memory or the stack suffices, or how long a call takes.
#![tactic(auto)]

mod counted;
mod counts;
mod draws;
mod ended;
mod error;
mod expected;
mod finding;
mod reached;
mod reading;
mod rounds;
mod stop;

pub use counted::Counted;
pub use counts::{Count, count_in_the_limit};
pub use error::BitsError;
pub use expected::cost_in_the_limit;
pub use rounds::rounds_in_the_limit;
