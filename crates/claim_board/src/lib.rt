//! A board that deals blocks to threads, each block to one and once, by one atomic word.
//!
//! Proved: `Board::claim` draws one number, above all that were dealt to the pass, and answers it exactly if it is a block
//! (`draws`). The numbers dealt to the passes of a board that was closed are those below the answer of `Board::close`, each to
//! one pass and once (`dealt`), and all blocks where one pass had `None` (`all`). Law, for every order of events: no block is
//! drawn twice (`deals_fairly`).
//!
//! No clause says that two threads ran at once, how fast a claim is, or that workers get equal shares. A claim takes no memory
//! and waits for no lock. Callers have to use each pass with its own board, and to hand all of them back to `close`; a board of
//! which a pass was dropped can't be closed.
#![tactic(auto)]

mod board;
mod deal;
mod hand;
mod pass;
mod seated;

pub use deal::{board_shows_a_dealing, deals_fairly};
pub use pass::{Board, Dealt, MOST_BLOCKS, MOST_PASSES, Pass};
