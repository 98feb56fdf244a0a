//! The lines of a program's masses and of its expected bits, limited or not, of its bounds, and of the rounds, the draws and the turns of
//! loops of a run.
//!
//! Proved: `masses_text` gives the lines of exactly the masses above 0, and `exact_text`, `bounds_text`, `enclosed_text`,
//! `bits_text`, `expected_text`, `rounds_text`, `draws_text`, `turns_text` and `how_long_text` those of what they are named for, outcomes
//! ascending and no fraction wider than 128 bits, but for `exact_text`, with the decimals that are wanted (`lines`, `line`). Each is refused only by a code
//! whose cause holds (`refused`): of `exact_text`, `expected_text`, `rounds_text` and `how_long_text` that is little where runs go on for
//! more than 256 turns, as `exact_fold` and `bits_fold` say. `draws_text` and `turns_text` are refused by no code: where their count is
//! not found the line says `unknown`.
//!
//! So no clause says which programs have their draws and turns told: a call that always said `unknown` would keep the contract, and tests
//! alone show that it does not.
//!
//! No clause says that memory or the stack suffices, or how long a call takes. Callers have to hand in limits in range: 0 to 10^9
//! turns, and 1 to 10^9 attempts and rounds.
#![tactic(auto)]

mod narrow;
mod reasons;
mod rows;
mod telling;

pub use narrow::is_narrow;
pub use reasons::Reason;
pub use telling::{
    bits_text, bounds_text, draws_text, enclosed_text, exact_text, expected_text, how_long_text,
    masses_text, rounds_text, turns_text,
};
