//! Programs as choice-fix trees, and the parts of a choice among several arms.
//!
//! Proved: `to_tree` builds the tree of a checked program's body (`tree`), which means on bits what the body does, from every
//! state and under all limits (`meaning`), and is well formed (`well_formed`).
//!
//! No clause says that memory suffices, or the stack: calls recurse as deep as blocks and expressions nest. A tree has neither
//! the result of its program nor its rounds, which `tie` of `bit_tree` adds. Callers have to know that `Cf` and `CfRow` are open:
//! of a tree that was put together by hand nothing is promised, and `debias` of `bit_tree` asks for a well-formed one.
#![tactic(auto)]

mod building;
mod parts;
mod tree;

pub use building::to_tree;
pub use parts::Parts;
pub use tree::{Cf, CfRow};
