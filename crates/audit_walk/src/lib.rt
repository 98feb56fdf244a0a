//! Audits of samplers: how the bit strings of one length end, by runs that are forked at each bit, in threads or without.
//!
//! Proved: the rows of `audit` and of `audit_alone` are exactly the outcomes in which some string of the depth ends, ascending, each with
//! its weight, and `undecided` is the number of strings on which the run needs more (`runs`); together they are all strings (`all`).
//! Law: where runs weigh what a program states, as those of its sampler do, each count over 2^depth is at most the mass of its outcome,
//! and is the mass where nothing is undecided (`audits_show_masses`).
//!
//! No clause says that a thread was made, how many run at once, or how long a call takes, which may double with each bit of
//! depth. Nor that memory suffices. Callers have to hand in limits in range and a depth of at most 20.
#![tactic(auto)]

mod auditing;
mod audits;
mod laws;
mod rows;
mod walking;

pub use auditing::{MOST_DEPTH, audit, audit_alone};
pub use audits::Audit;
pub use laws::audits_show_masses;
pub use rows::AuditRows;
