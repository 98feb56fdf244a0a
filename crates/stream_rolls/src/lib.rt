//! Rolls by weights on streams that follow one another, written into two slices: which end, and which label.
//!
//! Proved: at place k of the two slices `rolls_into` writes the end and the label of the roll by the weights, with at most so
//! many flips, on the first bits of the stream `first` + k, as many as the budget says, at all places (`rolled`), or nothing at
//! all where memory runs out (`untouched`).
//!
//! No clause says that streams are fair or independent, that memory suffices, or how long a call takes. It works in the caller's
//! thread. A label is 0 where the roll gave none, so it is to be read with its end. Callers have to hand in slices of one length,
//! weights that a roll may have, at most 10^9 flips and bits, and a first stream behind which all places have numbers of 64 bits.
#![tactic(auto)]

mod ends;
mod rolling;

pub use ends::{FLIPS, end_of, label_of};
pub use rolling::rolls_into;
