//! The lines of masses whose fractions may be wide.
//!
//! Proved: each call gives the line of its definition, byte for byte (`ensures` of `mass_line` and `endless_line`). A law: where both
//! numbers of a fraction are below 2^128, that is the line that `report_text` makes of it (`narrow_lines`).
//!
//! No clause says that memory suffices, or how fast a call is: a number of 4,096 bits has up to 1,234 digits, and each takes a
//! division of the whole by 10.
#![tactic(auto)]

mod laws;
mod lines;
mod numerals;

pub use laws::narrow_lines;
pub use lines::{endless_line, mass_line};
