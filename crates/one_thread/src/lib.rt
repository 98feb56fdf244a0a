//! Tallies and hunts in the caller's thread, for who may not start others.
//!
//! Proved: `tally_alone` and `hunt_alone` answer what `tally` of `tally_range` and `hunt` of `hunt_range` answer: the rows are exactly
//! the ways in which runs end on the streams of the range, with how many streams have each (`rows`); and the stream is the least of the
//! range whose run has the wanted key (`found`). An error comes only where memory runs out.
//!
//! No clause says that streams are even, or how long a call takes. Callers have to hand in limits in range, at most 2^40 streams and a
//! budget of at most 10^9 bits; how many workers a range names does not matter.
#![tactic(auto)]

mod hunting;
mod tallying;

pub use hunting::hunt_alone;
pub use tallying::tally_alone;
