//! A caller of the crates as a library: the program of a text, its runs on bits of one's own, and the chances of their outcomes.
//!
//! Proved: `program` answers the program that a text spells (`spelled`). `draw` answers its run on the bits that are left, which
//! that run leaves as its definition does (`answer`, `left`), and `draw_row` so many runs in a row (`row`). `chance` gives the
//! mass of an outcome under limits, which is what the strings of bits that end in it weigh (`mass`, `weighs`), and `limit_chance`
//! its limit where nothing is limited (`limit`).
//!
//! No clause says that memory or the stack suffices, that the bits handed in are fair, or that `limit_chance` answers at all for
//! a program with a loop in which runs go on for more than 256 turns. `NoProgram` does not say why. Nothing stands on this crate:
//! `docs/embedding.md` tells how it is made, and how to make one like it.
#![tactic(auto)]

mod drawing;
mod error;
mod reading;
#[cfg(test)]
mod tests;
mod weighing;
mod word_bits;

pub use drawing::{draw, draw_row};
pub use error::ReadError;
pub use reading::program;
pub use weighing::{chance, limit_chance};
pub use word_bits::WordBits;
