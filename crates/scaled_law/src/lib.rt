//! Tables of pairs of units: what a program makes of a table in which each state has two numbers of units, those that it has at
//! least, with products rounded down, and those that it has at most, with products rounded up. What a unit is may change on the
//! way, so that units stay small beside what has not failed, however unlikely the evidence. The functions do nothing: their
//! clauses are theorems about definitions.
//!
//! Proved, whatever units are taken after a statement, wherever it stands, and whenever a loop is left before its end: the units
//! that a round gives any set of outcomes at least are within its mass, and those that it gives them at most, with what is
//! loose, are enough for it; and no table on the way has more states than the peak (`rounds_hold_masses`). So, for every checked
//! program without a limit of rounds, where a round fails with probability below 1, the mass of any set of outcomes is at least
//! what its units at least are beside those that all others have at most, and at most the reverse (`masses_lie_beside_others`).
//! Both count what has passed the observations alone. For all turns both laws hold at every greater limit of turns, where what
//! ran out of turns counts for no outcome at least, and for all at most.
//!
//! By growth what has not failed is always more than half of `ALL` units (`units_grow_with_what_is_left`). Rows of such bounds
//! hold, and two bounds of a row are no further apart than what is not certain to belong to one outcome beside what is, and two
//! parts of 2^-120 (`bounds_beside_others_hold`).
//!
//! Without a limit of rounds a limit of attempts changes the mass of any set of outcomes by no more than that limit weighs, and it weighs
//! little where there are many attempts beside how often a round passes (`attempts_cost_what_they_weigh`).
//!
//! No clause is of code: `scaled_fold` walks so, and `enclose_fold` works with units that are only rounded down. No clause says that little is uncertain:
//! that grows with the products of a program, and with what is loose.
#![tactic(auto)]

mod attempts;
mod laws;

pub use attempts::attempts_cost_what_they_weigh;
pub use laws::{
    bounds_beside_others_hold, masses_lie_beside_others, pairs_are_merged, products_are_rounded_up,
    rounds_hold_masses, units_grow_with_what_is_left,
};
