//! The tests of whole calls and of their words, over files and sinks in memory.
//!
//! They stand in a crate of their own, so the program is not proved once more with its tests. They promise nothing: the lines and
//! statuses that are expected are written out in them. They show what no clause says: that calls succeed, and what is printed
//! where reads and writes fail as planned.
#![tactic(auto)]

#[cfg(test)]
mod calls;
#[cfg(test)]
mod comparing;
#[cfg(test)]
mod gates;
#[cfg(test)]
mod hostile;
#[cfg(test)]
mod in_memory;
#[cfg(test)]
mod words;
