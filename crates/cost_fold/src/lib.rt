//! The expected number of bits that a run of a program reads under limits, as an exact fraction.
//!
//! Proved: `cost` gives the expected number of bits of the definition, in lowest terms (`bits`). The lengths of the strings on
//! which the run ends, each by its weight, add up to at most that, and to exactly that at every length at which no string needs
//! more bits (`lengths`). But for want of memory it is refused only for a cause that holds (`refused`): the spread is 2^128 or
//! more, or a point has more than 65,536 states.
//!
//! No clause says that a refusal comes where its cause holds, that memory or the stack suffices, or how long a call takes. All
//! three limits are needed: what is read on average without them is not worked out. Callers have to hand in limits in range.
#![tactic(auto)]

mod error;
mod expected;

pub use error::CostError;
pub use expected::cost;
