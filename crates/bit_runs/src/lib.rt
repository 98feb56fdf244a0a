//! Runs of a program on bits that are named: one on those of bytes, and some in a row on those of a stream.
//!
//! Proved: `run_on_bytes` answers the program's run on the bits of some bytes (`answer`). `draws_in_a_row` writes at place k of two
//! slices the end and the value of the run on what the runs before it left of the bits of a source, and tells how many bits all of
//! them read; where the runs in a row of crate `many_runs` give outcomes, these stand there (`row`). `draws_on_stream` does the same
//! on the first bits of a stream, as many as the budget says. Where memory runs out nothing is written (`untouched`).
//!
//! No clause says that bits are fair, that memory suffices, or how long a run takes. All work in the caller's thread. A value is 0
//! where the run ended without one, so it is to be read with its end. Callers have to hand in limits in range, slices of one length,
//! and a budget of at most 10^9 bits.
#![tactic(auto)]

mod byte_bits;
mod rows;
mod running;

pub use byte_bits::ByteBits;
pub use rows::{OneStream, draws_in_a_row, draws_on_stream};
pub use running::{run_on_bytes, used};
