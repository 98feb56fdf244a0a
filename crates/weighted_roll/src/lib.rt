//! One draw of a label by weights with as few flips as can be, weights as words list them, what the labels weigh, and why no exact
//! draw needs fewer flips.
//!
//! Proved: `roll`, and `Loaded::roll` by weights that are laid out once, answer the walk with remainders down the tree of Knuth
//! and Yao on the bits of a source, and just the bits that they count are gone (`answer`, `taken`). Of the strings of T bits
//! exactly floor(2^T a / b) give a label of weight a in a sum b, and no exact roller has decided more after any number of flips,
//! nor makes fewer on average (`weighted_rolls_are_optimal`); a draw by attempts, as the compiler makes it, never decides sooner
//! (`draws_by_attempts_stay_behind`). `weigh_labels` gives these shares and the expected number of flips.
//!
//! No clause says that bits are fair, how fast a roll is, how much later a draw by attempts comes to its class, or that memory
//! suffices for `Loaded::new`, `weights_in` and `weigh_labels`; a roll takes none, since the caller lends a room of one number for
//! each label. Callers have to hand in weights that `are_weights` accepts: at most 2^32, with a sum from 1 to 2^62, none of them
//! all of it; and `Loaded::new` lays out at most 64 columns.
#![tactic(auto)]

mod columns;
mod drawn;
mod laws;
mod loaded;
mod reading;
mod rolling;
mod rules;
mod sharing;
mod table;
mod weights;

pub use drawn::draws_by_attempts_stay_behind;
pub use laws::{equal_weights_roll_fast, exact_rollers_stay_below, weighted_rolls_are_optimal};
pub use loaded::Loaded;
pub use reading::{lists_weights, weights_in};
pub use rolling::roll;
pub use rules::{GREATEST_SUM, MOST_DEPTH, MOST_LABELS, MOST_LISTED};
pub use sharing::{Shares, weigh_labels};
pub use weights::are_weights;
