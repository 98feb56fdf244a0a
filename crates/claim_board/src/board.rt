//! Making a board, claiming and closing.
ghost use Rattle.std.specs.Prelude.{◌≡◌, ◌<◌, ◌≤◌, true, false, [], ◌∷◌, ◌++◌, All, Any, None, IfOk, IfSome, vec_len};
ghost use Rattle.passes.specs.Numbers.{is_above, ascends};
ghost use Rattle.claim_board.specs.declared.pass.TheConstants.{MOST_BLOCKS, MOST_PASSES};
ghost use Rattle.claim_board.specs.Board.{blocks_of, workers_of, dealt_to, had_none, numbers_of};
ghost use Rattle.claim_board.specs.Board.{IsPassOf, IsSamePass, IsNew, AreAllPasses, AreDealtTo, Claimed};

use crate::hand::{Claiming, Terms};
use crate::pass::{Board, Dealt, Pass};
use passes::{close_board, open_board};
use std::alloc::{AllocError, Global};

impl Board {
    /// A board of the blocks 0 to `blocks - 1`, and a pass for each worker, which was dealt nothing yet. An `Err` comes only
    /// where memory runs out.
    pub fn new(alloc: Global, blocks: u64, workers: u32) -> Result<(Board, Vec<Pass>), AllocError>
        requires blocks { blocks ≤ MOST_BLOCKS }
        requires workers { (0 < workers) × (workers ≤ MOST_PASSES) }
        ensures board { IfOk result (λ r. (blocks_of r.0 ≡ blocks) × (workers_of r.0 ≡ workers)) }
        ensures count { IfOk result (λ r. vec_len r.1 ≡ workers) }
        ensures passes { IfOk result (λ r. AreAllPasses r.0 r.1.items) }
        ensures new { IfOk result (λ r. All IsNew r.1.items) }
    {
        let terms = Terms {
            blocks,
            workers: u64::from(workers),
        };
        let (table, passes) = open_board(alloc, 0, workers, &terms)?;
        let board = Board {
            table,
            blocks,
            workers,
        };
        Ok((board, passes))
    }

    /// Draws the next number, by one atomic step, and returns it if it is a block. `None` comes exactly where the number is no
    /// block, or where the pass had `None` before. Then nothing is drawn, and the pass stays as it was. It takes no memory.
    pub fn claim(&self, pass: &mut Pass) -> Option<u64>
        requires { IsPassOf self.now pass.old }
        ensures pass { IsSamePass pass.old pass.new }
        ensures draws { had_none pass.old ≡ false → Claimed self.now pass.old result pass.new }
        ensures some { IfSome result (λ i.
            (i < blocks_of self.now) × (is_above i (dealt_to pass.old) ≡ true)
            × (dealt_to pass.new ≡ dealt_to pass.old ++ i ∷ []) × (had_none pass.new ≡ false)) }
        ensures none { result ≡ None → (dealt_to pass.new ≡ dealt_to pass.old) × (had_none pass.new ≡ true) }
        ensures after_none { had_none pass.old ≡ true → (result ≡ None) × (pass.new ≡ pass.old) }
    {
        if pass.had_none {
            return None;
        }
        let drawn = self
            .table
            .shared
            .fetch_add::<Claiming>(&mut pass.seat, 0, 1);
        if drawn < self.blocks {
            Some(drawn)
        } else {
            pass.had_none = true;
            None
        }
    }

    /// Ends the board, with all its passes. The numbers dealt to them are those below the answer, each to one pass and once.
    /// Where one of them had `None`, these are all blocks.
    pub fn close(self, passes: Vec<Pass>) -> Dealt
        requires { AreAllPasses self passes.items }
        ensures dealt { AreDealtTo result.dealt passes.items }
        ensures within { result.dealt ≤ blocks_of self }
        ensures all { Any (λ p. had_none p ≡ true) passes.items → result.dealt ≡ blocks_of self }
    {
        let Board {
            table,
            blocks,
            workers: _,
        } = self;
        Dealt {
            dealt: close_board(table, passes).min(blocks),
        }
    }
}
