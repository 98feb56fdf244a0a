//! The lines that the program prints, one call for each kind, made with no memory.
//!
//! Proved: each call gives the line of its definition, byte for byte (`ensures` of `sample_line`, `mass_line`, `fault_line` ..),
//! and a line has at most 384 bytes (`Line::bytes`).
//!
//! No clause says that these are good words: code and definition read the words of refusals and of the version in the same
//! tables, so a slip in one of them is seen by tests alone. A code that does not exist has a line without words. None of the
//! calls takes memory or asks for anything.
#![tactic(auto)]

mod answers;
mod counts;
mod decimals;
mod line;
mod outcomes;
mod refusals;
mod rolls;
mod shares;
mod streams;
mod version;

pub use answers::{check_line, sample_line};
pub use counts::{Count, number_line, tally_line};
pub use decimals::{Decimals, MOST_DECIMALS, Rounding, sign};
pub use line::{LINE_BYTES, Line};
pub use outcomes::key_line;
pub use refusals::{Refusal, fault_line};
pub use rolls::{each_line, flips_line, roll_line};
pub use shares::{
    bound_line, cost_line, endless_line, mass_line, other_line, unbounded_line, undecided_line,
};
pub use streams::hunt_line;
pub use version::VERSION_LINE;
