//! Tables of units: what a program makes of a table whose weights are whole numbers of units, each product rounded down, how far
//! that stays below the exact fractions, and bounds between which a program's masses lie, from one such round. The functions do
//! nothing: their clauses are theorems about definitions.
//!
//! Proved: a table of units that is below a table of fractions is so after a block, for every weighting of states and of ends,
//! and no table on the way has more states (`blocks_stay_below`). So the units that a round gives any set of outcomes are at most
//! its mass (`rounds_stay_below`). A block makes no unit, and loses at most k for each product where each product loses at most k
//! (`units_are_lost_by_rounding`): k is 1 without a limit of attempts, and 6 with one (`products_are_rounded_down`).
//!
//! And, for every checked program and all limits, and for all turns at every greater limit of turns, where without a limit of
//! rounds a round fails with probability below 1: the mass of an outcome that has a row lies between its two bounds, and all
//! outcomes without a row have together at most the bound of the others (`masses_lie_between`). Two bounds of a row are no
//! further apart than that bound and a unit of 2^-120, and with a limit of rounds one unit more for each. Without one, and but
//! for all turns, what is lost is at most k units for each product, where each loses at most k
//! (`bounds_are_as_wide_as_what_is_lost`). The bound of the others is at most what all rounds lose: what the points of a round,
//! the most states of one and its widest draw allow to be lost by rounding, and for all turns what ran out of turns
//! (`others_have_little`). The points are those of the tables (`points_are_tables`).
//!
//! No clause is of code: `enclose_fold` works with such tables and gives these bounds. No clause says that few units are lost in
//! all, or that bounds are narrow: the number of products grows with the states and the turns of a program; without a limit of
//! rounds what is lost is divided by what does not fail, and for all turns what ran out of turns counts as lost.
#![tactic(auto)]

mod enclosing;
mod rounding;

pub use enclosing::{
    bounds_are_as_wide_as_what_is_lost, masses_lie_between, others_have_little, points_are_tables,
    some_rounds_stay_below,
};
pub use rounding::{
    blocks_stay_below, products_are_rounded_down, rounds_stay_below, tables_are_merged,
    units_are_lost_by_rounding,
};
