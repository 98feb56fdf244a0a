//! Forgetting: the program that does what a program does, and sets each variable to 0 where its value no longer matters. So
//! states that differ in such variables alone become one, and a program with many variables is weighed by few states.
//!
//! Proved, for every program, checked or not: the forgetful program reads the same bits to the same answer, faults and limits
//! included, under all limits; its rounds, and all rounds together, give each outcome the same mass, as the same fraction
//! (`forgetting_changes_no_meaning`); and its runs read as many bits on average (`forgetting_costs_nothing`). The forgetful
//! program of a checked program is one (`forgetting_keeps_programs_checked`), and `forgetful` gives exactly it. What is set to 0
//! is said by what matters (`specs/Liveness`) and what may differ from 0 (`specs/Filling`).
//!
//! `enclose` and `exact` go by way of it. No clause says that each variable whose value does not matter is 0 then, nor that states
//! become fewer: the order of statements stays, and a variable that is read late is kept till then. Callers have to know that the
//! forgetful program has further statements: turns, draws and rounds are those of the program, but its text is longer.
#![tactic(auto)]

mod along;
mod blocks;
mod ends;
mod filled;
mod laws;
mod mattering;
mod name_set;
mod program;
mod reading;

pub use laws::{
    forgetting_changes_no_meaning, forgetting_costs_nothing, forgetting_keeps_programs_checked,
};
pub use program::forgetful;
