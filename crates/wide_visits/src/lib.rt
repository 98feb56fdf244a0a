//! The expected visits of the states of a loop, from where each turn leads, in fractions of up to 4,096 bits: by elimination modulo
//! primes above 2^62, as many as it takes, within as many steps as are allowed.
//!
//! Nothing is promised of what is found: whoever asks for visits checks them by one turn of the loop. No clause says that there is
//! an answer either.
#![tactic(auto)]

mod digits;
mod error;
mod limbs;
mod places;
mod ratio;
mod turns;
mod weight;
mod wide_turns;

pub use error::VisitsError;
pub use turns::{Turns, Visits};
