//! Exact masses of a program where nothing is limited, in fractions of 128 bits, or of up to 4,096 where these do not suffice.
//!
//! Proved: each row of `exact` is what the mass of its outcome rises to as turns grow, in lowest terms, outcomes ascending, and what
//! runs for ever is what the mass of the limit of turns tends to (`limits`). They are worked out of the forgetful program: the masses
//! of what it settles to, and what they leave of 1 (`masses`). They are those of `exact_fold::exact`, where it has them; where it
//! says that 128 bits are too few, the body of the program is settled in wide fractions.
//!
//! But for want of memory a program is refused only for a cause for which `exact_fold::exact` refuses it (`refused`). So no clause says
//! that there is an answer where fractions are wide; what is tried is a table of programs, in the tests. No clause says that memory
//! or the stack suffices, or how long a call takes.
#![tactic(auto)]

mod error;
mod masses;
mod outcomes;
mod program;
mod rest;
mod rows;

pub use masses::{Masses, exact};
pub use program::WideMasses;
pub use rows::WideRows;
