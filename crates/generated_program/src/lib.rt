//! The generated program of a number up to 1000: large, accepted, and known in advance, for the command `gen`.
//!
//! Proved: `generate` builds exactly the program of its definition, and `generate_checked` that program, checked (`program`).
//! Laws, for each such number: it is accepted as it is (`is_checked`); its canonical text has as many bytes as `bytes_in` says,
//! which a text may have (`has_bytes`); and that text is read back as the program and as no other (`is_read_back`).
//!
//! No clause says that memory suffices, or what a run of such a program gives beyond what holds of every checked program. Callers
//! have to ask for a number of at most `GREATEST_NUMBER`.
#![tactic(auto)]

mod generating;
mod laws;
mod parts;

pub use generating::{GREATEST_NUMBER, generate, generate_checked};
pub use laws::{has_bytes, has_statements, is_checked, is_read_back};
