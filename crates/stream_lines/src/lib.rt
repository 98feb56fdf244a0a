//! The lines of runs on a range of seeded streams, made by several threads and written as they come.
//!
//! Proved: the sink took the lines of the program's runs on the streams of the range, all of them, in their order, and nothing
//! else, whatever the number of workers and whichever ends first. Where a write failed it took a part of the front of these
//! lines, and one failure is recorded (`write_runs`: `written`). Where memory runs out nothing was written (`untouched`).
//!
//! No clause says that two threads ran at once, how long a call takes, when lines are written, or how much memory it needs. Its
//! code takes all memory before the first byte, for 16,384 lines of each worker. It writes the lines of 8 runs of each, then of 16
//! more, then of 32 more, and so on. Callers have to hand in limits in range, at most 2^40 streams, 1 to 64 workers, and a budget of
//! at most 10^9 bits.
#![tactic(auto)]

mod batch;
mod filling;
mod running;
mod worker;
mod writing;

pub use running::write_runs;
