//! Bounds of masses, by merged tables of states whose weights are rounded down to units of 2^-120. They are worked out of the forgetful
//! program, in which states that differ in variables alone whose values no longer matter are one. Where that is too coarse beside what passes,
//! and rounds are not limited, they are those of `scaled_fold`, by units at least and at most. A draw among many numbers is walked state by
//! state with what is behind it, as far as what it drew is set anew and nothing is rounded: to the same units, by fewer states at once.
//!
//! Proved: each mass lies between its two bounds (`enclose`), for all turns at every greater limit of turns too, where without a
//! limit of rounds a round fails with probability below 1. The bounds are no further apart than the bound of the others and a few
//! units (`close`), and that is no more than what roundings to units of 2^-120, and for all turns what ran out of turns, lose in all rounds
//! (`few`). Rows are of possible outcomes, ascending (`ordered`). It is never refused for its width: but for want of memory, only where a
//! point of the forgetful program has more than 65,536 states, or where rounds have no limit and every round fails, but for what its
//! roundings may have lost (`refused`).
//!
//! No clause says that a refusal comes where its cause holds, how much narrower bounds are than `few` says, that memory or the stack
//! suffices, or how long a call takes, which
//! grows with the states and with the limit of turns. What is lost is counted by the widest draw of any state of 64 bits,
//! reached or not, and by the greatest table of the forgetful program, which has a table more for each variable that is
//! forgotten. Callers have to hand in limits in range.
#![tactic(auto)]

mod answering;
mod body;
mod bounding;
mod bounds;
mod choosing;
mod draws;
mod early;
mod enclosing;
mod ended;
mod error;
mod fold;
mod outcomes;
mod rounds;
mod rows;
mod steps;
mod table;

pub use bounds::enclose;
pub use error::EncloseError;
