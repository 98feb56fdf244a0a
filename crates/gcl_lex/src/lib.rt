//! The lexer: from the bytes of a text to its tokens, each with the bytes that it spans.
//!
//! Proved: `lex` answers exactly the tokens of the text (`tokens`, `only`), or its one refusal, at its place (`refused`). Law:
//! each list of bytes has one list of tokens or one refusal, and never both (`one_answer`). What `parse` of `gcl_parse` asks for
//! stands in `short` and `order`.
//!
//! No clause says that memory suffices, nor that an allocation was refused where `OutOfMemory` comes: it says nothing of the
//! text. A text of more than 65,536 bytes is refused whatever it holds. A token has no copy of its bytes, only their place in the
//! text, so a name is read from the text again. Which pieces a text is cut into, and what they are, is the definition in
//! `gcl_core` (`Lexing`), which has to be believed.
#![tactic(auto)]

mod cutting;
mod error;
mod lexing;
mod piece;

pub use error::LexError;
pub use lexing::{ends_here, lex, one_answer};
