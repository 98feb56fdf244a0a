//! Draws as trees of flips: from the ends of a draw's classes to the tree that an attempt walks.
//!
//! Proved: `direct` builds the decided draw of some ends, which has no flip of two equal leaves and leads each number to its
//! class (`tree`, `apart`, `classes`). An attempt at it, read by prefixes, is the attempt among the classes (`attempts`), and
//! with m ends over numbers of k bits it has at most m·k flips (`small`). Law: there is one such draw (`one_decided_draw`).
//!
//! No clause says that memory suffices, nor how long building takes. `direct` recurses at most 63 deep. Callers have to hand in
//! at most `MOST_ARMS` ends, the last of which is at most 2^62. `perfect`, `coalesce` and `attempt` are for tests and for users
//! of the crate.
#![tactic(auto)]

mod complete;
mod deciding;
mod laws;
mod leaves;
mod merging;
mod tree;
mod walking;
mod widths;

pub use complete::{LAST_END_OF_COMPLETE, perfect};
pub use deciding::direct;
pub use laws::{decided_draws_are_small, one_decided_draw, shortest_string_decides};
pub use merging::coalesce;
pub use tree::{Attempt, Draw};
pub use walking::attempt;
pub use widths::bits_for;
