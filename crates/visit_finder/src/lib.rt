//! The expected visits of the states of a loop, from where each turn leads, by elimination modulo primes above 2^62; fractions are found
//! again by Euclid's algorithm.
//!
//! Proved: whatever visits balance exactly, what is found of a state is the only fraction of two numbers of 128 bits that they can be, and
//! `NoneNarrow` comes only where those of some state are no such fraction (`Turns::visits`). For that no turn leads to a state that may be
//! left but from one (`Turns::leaving`), whatever balances modulo a prime is so many times what elimination finds there (`solved`), and the
//! fraction that is found by its remainders is the only one, or there is none (`Moduli::fraction`).
//!
//! That there are visits is not said: whoever asks for them checks what is found by one turn of the loop. Nor is it said that there is an
//! answer: what a turn leads on with may add up to a wide fraction, and four of eight primes may be of no use.
#![tactic(auto)]

mod columns;
mod error;
mod primes;
mod residues;
mod solving;
mod turns;
mod wide;

pub use error::FinderError;
pub use primes::Prime;
pub use residues::{Moduli, Residues};
pub use solving::solved;
pub use turns::{Turns, left};
