//! How often runs end in each way on a range of seeded streams, counted by several threads.
//!
//! Proved: the rows of `tally` are exactly the ways in which runs end on the streams of the range, ascending, each with the
//! number of streams that have it (`rows`, `counts`), in whatever order the threads run. Laws: two neighbouring ranges count
//! together what the range over both counts (`ranges_add_up`), and a count is off what the outcome weighs by no more than the
//! streams are off even at the strings just read to it (`tallies_follow_the_fronts`).
//!
//! No clause says that the streams are even, that two threads ran at once, or how long a call takes. Nor that memory suffices;
//! want of it in any thread is the answer of the call. Callers have to hand in limits in range, at most 2^40 streams, 1 to 64
//! workers, and a budget of at most 10^9 bits.
#![tactic(auto)]

mod laws;
mod share;
mod sharing;
mod small_counts;
mod streams;
mod table;
mod tallying;
mod working;

pub use laws::{code_counts_as_program, ranges_add_up, tallies_follow_the_fronts};
pub use share::Share;
pub use table::Tally;
pub use tallying::tally;
pub use working::work;
