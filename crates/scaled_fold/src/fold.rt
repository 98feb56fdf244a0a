// A walk through a block.

ghost use Rattle.std.specs.Prelude.{◌≡◌, ◌≤◌, IfOk};
ghost use Rattle.std.specs.List.{sum};
ghost use Rattle.gcl_core.specs.declared.rules.TheConstants.{GREATEST_DENOMINATOR};
ghost use Rattle.gcl_core.specs.meaning.Arms.{parts_of};
ghost use Rattle.gcl_core.specs.meaning.Bounds.{StatementIsWeighed, BlockIsWeighed, ArmsAreWeighed, ExpressionBelow};
ghost use Rattle.gcl_core.specs.meaning.Bounds.{StatementBelow, BlockBelow, ArmsBelow};
ghost use Rattle.gcl_core.specs.meaning.Views.{expression_of, statement_of, statements_of, list_of_arms};
ghost use Rattle.scaled_fold.specs.inner.Folding.{FollowsBlock, FollowsStatement, FollowsLoop, FollowsArms};

use crate::error::PairsError;
use crate::growing::grown;
use crate::odds::Odds;
use crate::tables::all_of;
use crate::walk::Walk;
use gcl_core::{Arms, Block, Expr, Stmt};
use std::alloc::Global;

/// How a walk goes through blocks: where its memory comes from, the most turns for each entry of a loop, and the most attempts of a draw,
/// where they have a limit.
#[derive(Clone, Copy)]
pub struct Fold {
    pub alloc: Global,
    pub turns: u64,
    pub attempts: Option<u64>,
}

impl Fold {
    /// The walk after a block.
    #[cycle(fold)]
    pub fn block(self, b: &Block, walk: Walk) -> Result<Walk, PairsError>
        requires below { BlockBelow walk.next.vars (statements_of b.now) }
        requires weights { BlockIsWeighed (statements_of b.now) }
        ensures { IfOk result (FollowsBlock self (statements_of b.now) walk) }
    {
        let mut now = walk;
        for s in &b.stmts {
            now = self.stmt(s, now)?;
            now = grown(self.alloc, now)?;
        }
        Ok(now)
    }

    #[cycle(fold)]
    #[tactic(auto, using(gcl_core::proofs::ViewLemmas::views))]
    fn stmt(self, s: &Stmt, walk: Walk) -> Result<Walk, PairsError>
        requires below { StatementBelow walk.next.vars (statement_of s.now) }
        requires weights { StatementIsWeighed (statement_of s.now) }
        ensures { IfOk result (FollowsStatement self (statement_of s.now) walk) }
    {
        match s {
            Stmt::Skip => Ok(walk),
            Stmt::Set(x, e) => walk.assigned(self.alloc, *x, e),
            Stmt::Uniform(x, e) => walk.drawn(self.alloc, self.attempts, *x, e),
            Stmt::Observe(e) => walk.observed(self.alloc, e),
            Stmt::If(e, a, c) => {
                let both = walk.parted(self.alloc, e)?;
                let first = self.block(a, both)?;
                let turned = first.swapped(self.alloc)?;
                let second = self.block(c, turned)?;
                second.taken_back(self.alloc)
            }
            Stmt::While(e, body) => self.while_loop(body, e, walk),
            Stmt::Choice(p, a, c) => {
                let both = walk.chosen(self.alloc, self.attempts, *p)?;
                let first = self.block(a, both)?;
                let turned = first.swapped(self.alloc)?;
                let second = self.block(c, turned)?;
                second.taken_back(self.alloc)
            }
            Stmt::Choose(arms) => self.arms(arms, walk),
        }
    }

    // The arms of a choice among several, one after the other, each by its part; what came of those before stands aside.
    #[cycle(fold)]
    fn arms(self, arms: &Arms, walk: Walk) -> Result<Walk, PairsError>
        requires below { ArmsBelow walk.next.vars (list_of_arms arms.now) }
        requires weights { ArmsAreWeighed (list_of_arms arms.now) }
        requires some { 1 ≤ sum (parts_of (list_of_arms arms.now)) }
        requires most { sum (parts_of (list_of_arms arms.now)) ≤ GREATEST_DENOMINATOR }
        ensures { IfOk result (FollowsArms self (list_of_arms arms.now) walk) }
    {
        let odds = Odds::of(mass_fold::choosing::total(arms), self.attempts);
        let mut now = walk.arms_begun(self.alloc, odds)?;
        for (count, block) in &arms.arms {
            let part = now.with_part(self.alloc, odds, *count)?;
            now = self.block(block, part)?.gathered(self.alloc)?;
        }
        Ok(now.left(self.alloc))
    }

    #[cycle(fold)]
    fn while_loop(self, body: &Block, e: &Expr, walk: Walk) -> Result<Walk, PairsError>
        requires reads { ExpressionBelow (expression_of e.now) walk.next.vars }
        requires below { BlockBelow walk.next.vars (statements_of body.now) }
        requires weights { BlockIsWeighed (statements_of body.now) }
        ensures { IfOk result (FollowsLoop self (expression_of e.now) (statements_of body.now) walk) }
    {
        let mut now = walk.with_none_aside(self.alloc)?;
        for _ in 0..self.turns {
            let (least, _) = all_of(&now.next)?;
            if least == 0 {
                return now.loosened(self.alloc);
            }
            now = self.block(body, now.entered(self.alloc, e)?)?;
        }
        now.out_of_turns(self.alloc, e)
    }
}
