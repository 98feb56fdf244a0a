//! From the bytes of a text to its program: the lexer, the parser and the checker, one behind the other.
//!
//! Proved: `check_text` answers the accepted program that the text spells, or the code for which it spells none and its place
//! (`spelled`). `parse_text` answers the program as it is written, not checked, with the place of each statement, or likewise a
//! code and a place (`written`).
//!
//! No clause says that memory or the stack suffices. `OutOfMemory` says nothing of the text. A place is the number of bytes
//! before it. Two codes have none: that the text is too long, and that a program has too many names. A refusal of the text as it
//! is written comes before those of the check.
#![tactic(auto)]

mod reading;
mod refusing;

pub use reading::{check_text, parse_text};
pub use refusing::TextRefusal;
