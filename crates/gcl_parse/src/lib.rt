//! The parser: from the tokens of a text to the program that they derive, with the place of each statement.
//!
//! Proved: `parse` answers the one program that the tokens derive (`program`, `only`). It refuses them at the first token that
//! breaks the rule of nesting; where none does, at the first with which they begin no program, or at the end of the text
//! (`refused`). Laws: tokens are a program or are refused at one place, never both (`program_or_refused`), and each text has one
//! reading, as it is written and as it is checked (`one_reading`).
//!
//! No clause says that memory suffices, or the stack: calls recurse as deep as brackets and operators nest, which the rule of
//! nesting bounds. Callers have to hand in a text of at most 65,536 bytes and its tokens in their order, as `lex` gives them. The
//! program is not checked yet: it may read a name that nothing sets, or have a weight above 1, which `gcl_check` refuses.
#![tactic(auto)]

mod beginnings;
mod error;
mod expressions;
mod laws;
mod nesting;
mod offsets;
mod parser;
mod parsing;
mod starts;
mod statements;
mod wording;

pub use error::ParseError;
pub use laws::{
    kinds_decide, one_program, one_reading, program_or_refused, spelled_programs_are_checked,
};
pub use offsets::Places;
pub use parsing::{Parsed, parse};
