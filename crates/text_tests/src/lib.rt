//! The tests of texts, from their bytes to checked programs and back, of lines, and of the values of expressions.
//!
//! They stand in a crate of their own and go by public calls, so none of the crates that they test is proved once more with its
//! tests. They promise nothing: the tokens, programs, codes and lines that are expected are written out in them. They show what
//! no clause can: that the reserved names, symbols and words in the tables which code and definitions share are the right ones.
#![tactic(auto)]

#[cfg(test)]
mod checking;
#[cfg(test)]
mod classes;
#[cfg(test)]
mod filling;
#[cfg(test)]
mod generating;
#[cfg(test)]
mod lines;
#[cfg(test)]
mod operators;
#[cfg(test)]
mod parsing;
#[cfg(test)]
mod printing;
#[cfg(test)]
mod tokens;
#[cfg(test)]
mod weights;
#[cfg(test)]
mod wide_lines;
