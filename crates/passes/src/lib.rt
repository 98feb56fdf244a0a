//! What both boards say of their passes and do with them: how these are numbered, made and joined, and lists in which each number
//! stands once.
//!
//! Proved: `open_board` makes a table of one word and a pass for each worker, with the views that come of making one after the
//! other (`views`), and `close_board` joins the seats of all passes and answers a word that the rule of the board allows beside
//! what the last view then has. Where each number below n stands in one of some lists and once, what the lists add up to is
//! fixed, however the numbers are spread (`lists_add_up`). By this `tally_range` shows that what threads counted in their blocks
//! is together the count of all blocks.
//!
//! No clause is of threads: the two calls that run are made before a board is lent to any, and after. `View` has only words of
//! contracts, of which no value is made. Callers have to show that their rule allows a split and a join of any two views.
#![tactic(auto)]

ghost use Rattle.passes.specs.Numbers.{ListsAddUp};

mod boards;
mod seated;
mod steps;
mod view;

pub use boards::{close_board, open_board};
pub use seated::Seated;
pub use steps::{Joining, Making, View};
pub use view::Numbering;

/// It does nothing: its clause is the law that what lists of numbers add up to is fixed once each number stands in one of them
/// and once, however the numbers are spread.
pub fn lists_add_up()
    ensures { ListsAddUp }
{}
