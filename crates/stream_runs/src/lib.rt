//! Ranges of seeded streams, the blocks in which they go to threads, a run on one stream, and how runs on streams that follow one
//! another end, written into two slices.
//!
//! Proved: `answer_on_stream` gives the answer of a run of the code on the first bits of a stream, as many as the budget says
//! (`answer`), and `run_on_stream` its key (`key`); either leaves a run that can be set back to the same start. A range has as
//! many blocks of 64 streams as it takes, of which the last may be shorter (`SeedRange::blocks`, `SeedRange::first_stream`,
//! `SeedRange::end_of_block`). At place k of two slices `draws_of` writes the end and the value of the program's run on the first
//! bits of the stream `first` + k, as many as the budget says, at all places (`drawn`), or nothing at all where memory runs out
//! (`untouched`). `draws_into` does the same with a sampler that was compiled before.
//!
//! No clause says that streams are fair or independent, how long a run takes, or that memory suffices for `draws_of`; no other
//! call takes any, since the run is handed in. All work in the caller's thread. A value is 0 where the run ended without one, so
//! it is to be read with its end. Callers have to hand in a run of the same start as `home`, which stands before its first bit, a
//! budget of at most 10^9 bits, limits in range, slices of one length, and a first stream behind which all places have numbers of
//! 64 bits.
#![tactic(auto)]

mod drawing;
mod ends;
mod job;
mod programs;
mod range;
mod running;

pub use drawing::{StreamsFrom, draws_into};
pub use ends::{
    ATTEMPTS, BAD_BOUND, MORE_BITS, OVERFLOW, ROUNDS, TURNS, VALUE, ZERO_DIVISOR, end_of, value_of,
};
pub use job::Job;
pub use programs::draws_of;
pub use range::{MOST_STREAMS, MOST_WORKERS, STREAMS_OF_A_BLOCK, SeedRange};
pub use running::{answer_on_stream, run_on_stream};
