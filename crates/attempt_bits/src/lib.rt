//! How many bits one attempt of a draw reads on average: of a choice, of a draw with any ends, and of a uniform draw.
//!
//! Proved: each of the three calls gives the first number of `attempt_bits`, whose second number is 2^k for numbers of k bits
//! (`value`). It is at most k * 2^k (`most`).
//!
//! So an answer is no fraction: callers divide it by 2^k. It counts one attempt; what all attempts of a draw read is the matter
//! of the meter in `mass_fold`. No clause says how long a call takes. None takes memory, and calls recurse at most 63 deep.
//! Callers have to hand in a weight of at most 1 over a number from 1 to 2^62, ends of which the last is at most 2^62, or a bound
//! from 1 to 2^63 - 1.
#![tactic(auto)]

mod choices;
mod uniforms;

pub use choices::{arms_bits, choice_bits};
pub use uniforms::uniform_bits;
