//! Expressions as steps over a stack, or as short forms that need no step, and their values.
//!
//! Proved: `Formula::of` makes the steps of an expression (`steps`), from which `Formula::tree` reads it back. `Formula::value`
//! gives the value of that expression, or its first fault, and leaves the stack its room (`value`, `room`).
//!
//! No clause says how fast a value is found, or which expressions have a short form: contracts see a formula as the expression
//! that it stands for. Nor that memory suffices for `of` and `tree`, or the stack of the machine, since `of` recurses as deep as
//! an expression nests. `value` takes no memory and does not recurse. Callers have to hand in a `Stack` with room for the
//! formula's `depth`, and a value for each variable that it reads.
#![tactic(auto)]

mod chaining;
mod formula;
mod op;
mod reading;
mod running;
mod stack;
mod terms;
mod writing;

pub use formula::Formula;
pub use op::Op;
pub use stack::Stack;
