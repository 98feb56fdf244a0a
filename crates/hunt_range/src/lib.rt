//! The least stream of a range whose run ends in a wanted way, hunted by several threads.
//!
//! Proved: `hunt` answers the least stream of the range whose run has the wanted key, and none exactly where there is none, in
//! whatever order the threads run. Law: there is one such answer (`least_is_one`).
//!
//! No clause says that streams behind the one that was found are left out, which is only tested, that two threads ran at once, or
//! how long a call takes. Nor that memory suffices; want of it in any thread is the answer of the call. Callers have to hand in
//! limits in range, at most 2^40 streams, 1 to 64 workers, and a budget of at most 10^9 bits.
#![tactic(auto)]

mod hunter;
mod hunting;
mod laws;
mod streams;
mod working;

pub use hunting::hunt;
pub use laws::least_is_one;
