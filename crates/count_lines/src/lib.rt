//! The lines of audits and of tallies.
//!
//! Proved: `audit_text` gives a line for each row of an audit, in order, with its share of all strings in lowest terms, and a last one for
//! the strings on which the run needs more, where there are any; `tally_text` gives a line for each row of a tally (`ensures`). So of a
//! program's audit and of its tally they are what `AreAuditLines` and `AreTallyLines` say.
//!
//! No clause says that memory suffices. Callers have to hand in a depth of at most 20.
#![tactic(auto)]

mod audits;
mod tallies;

pub use audits::audit_text;
pub use tallies::tally_text;
