// A table through a block.

ghost use Rattle.std.specs.Prelude.{◌≡◌, ◌≤◌, length, IfOk, IfErr};
ghost use Rattle.std.specs.List.{sum};
ghost use Rattle.numbers.specs.Fraction.{IsEqual};
ghost use Rattle.gcl_core.specs.meaning.Arms.{parts_of};
ghost use Rattle.gcl_core.specs.meaning.Bounds.{StatementIsWeighed, BlockIsWeighed, ArmsAreWeighed, ExpressionBelow, AreParts};
ghost use Rattle.gcl_core.specs.meaning.Bounds.{StatementBelow, BlockBelow, ArmsBelow};
ghost use Rattle.gcl_core.specs.meaning.Views.{expression_of, statement_of, statements_of, list_of_arms};
ghost use Rattle.gcl_core.specs.weighing.WeightedEnds.{class_weight};
ghost use Rattle.mass_fold.specs.inner.Folding.{BlockFolds, BlockBlames, StatementFolds, StatementBlames};
ghost use Rattle.mass_fold.specs.inner.Folding.{LoopFolds, LoopBlames, ArmsFold, ArmsBlame};
ghost use Rattle.mass_fold.specs.inner.Folding.{BlockMeters, StatementMeters, LoopMeters, ArmsMeter};

use crate::attempts::Attempts;
use crate::choosing::{sides, total, undecided, weighed};
use crate::ended::{Ended, Gone};
use crate::error::MassError;
use crate::meter::{Meter, count_arms, count_choice, count_uniform};
use crate::steps::{assign, end_all, merge, split};
use crate::table::Table;
use gcl_core::{Arms, Block, Expr, Stmt};
use numbers::Frac;
use std::alloc::Global;

/// How tables go through blocks: where their memory comes from, the most turns for each entry of a loop, and the most attempts
/// for each draw. What has ended on the way is added to what had, and the bits of the draws that are reached to those of the
/// meter.
#[derive(Clone, Copy)]
pub struct Fold {
    pub alloc: Global,
    pub turns: u64,
    pub attempts: Attempts,
}

impl Fold {
    /// The table after a block. What ended on the way is added to `ended`, and the bits of the draws that were reached to the
    /// meter. An error comes where a weight needs more than 128 bits, a table more than [`MOST_STATES`](crate::MOST_STATES)
    /// states, or memory runs out.
    #[cycle(fold)]
    pub fn block(
        self,
        b: &Block,
        table: Table,
        ended: &mut Ended,
        meter: &mut Meter,
    ) -> Result<Table, MassError>
        requires below { BlockBelow table.vars (statements_of b.now) }
        requires weights { BlockIsWeighed (statements_of b.now) }
        ensures ok { IfOk result (λ t. BlockFolds self (statements_of b.now) table ended.old t ended.new) }
        ensures bits { IfOk result (λ t. BlockMeters self (statements_of b.now) table ended.old meter.old meter.new) }
        ensures vars { IfOk result (λ t. t.vars ≡ table.vars) }
        ensures cause { IfErr result (BlockBlames self (statements_of b.now) table ended.old) }
    {
        let mut now = table;
        for s in &b.stmts {
            now = self.stmt(s, now, ended, meter)?;
        }
        Ok(now)
    }

    #[cycle(fold)]
    #[tactic(auto, using(gcl_core::proofs::ViewLemmas::views))]
    fn stmt(
        self,
        s: &Stmt,
        table: Table,
        ended: &mut Ended,
        meter: &mut Meter,
    ) -> Result<Table, MassError>
        requires below { StatementBelow table.vars (statement_of s.now) }
        requires weights { StatementIsWeighed (statement_of s.now) }
        ensures ok { IfOk result (λ t. StatementFolds self (statement_of s.now) table ended.old t ended.new) }
        ensures bits { IfOk result (λ t. StatementMeters self (statement_of s.now) table ended.old meter.old meter.new) }
        ensures vars { IfOk result (λ t. t.vars ≡ table.vars) }
        ensures cause { IfErr result (StatementBlames self (statement_of s.now) table ended.old) }
    {
        if table.states.len() == 0 {
            return Ok(table);
        }
        match s {
            Stmt::Skip => Ok(table),
            Stmt::Set(x, e) => assign(self.alloc, *x, e, table, ended),
            Stmt::Uniform(x, e) => {
                *meter = count_uniform(*meter, e, self.attempts, &table);
                self.draw(*x, e, table, ended)
            }
            Stmt::Observe(e) => {
                let (first, second) = split(self.alloc, e, table, ended)?;
                end_all(Gone::Failed, second, ended)?;
                Ok(first)
            }
            Stmt::If(e, a, c) => {
                let (first, second) = split(self.alloc, e, table, ended)?;
                let mut left = self.block(a, first, ended, meter)?;
                let right = self.block(c, second, ended, meter)?;
                merge(&mut left, right)?;
                Ok(left)
            }
            Stmt::While(e, body) => self.while_loop(body, e, table, ended, meter),
            Stmt::Choice(p, a, c) => {
                *meter = count_choice(*meter, *p, self.attempts, &table);
                let (first, second) = sides(self.alloc, *p, self.attempts, &table, ended)?;
                let mut left = self.block(a, first, ended, meter)?;
                let right = self.block(c, second, ended, meter)?;
                merge(&mut left, right)?;
                Ok(left)
            }
            Stmt::Choose(arms) => {
                *meter = count_arms(*meter, arms, self.attempts, &table);
                let part = undecided(total(arms), self.attempts, &table, ended)?;
                self.arms(arms, &part, &table, ended, meter)
            }
        }
    }

    // The arms of a choice among several, one after the other, each by its part. What no attempt decides has ended before.
    #[cycle(fold)]
    fn arms(
        self,
        arms: &Arms,
        part: &Frac,
        table: &Table,
        ended: &mut Ended,
        meter: &mut Meter,
    ) -> Result<Table, MassError>
        requires below { ArmsBelow table.now.vars (list_of_arms arms.now) }
        requires parts { AreParts (parts_of (list_of_arms arms.now)) }
        requires weights { ArmsAreWeighed (list_of_arms arms.now) }
        requires above { 1 ≤ part.now.0 }
        requires equal { IsEqual part.now (class_weight (sum (parts_of (list_of_arms arms.now))) self.attempts.most 1) }
        requires any { 1 ≤ length table.now.states.entries }
        ensures ok { IfOk result (λ t. ArmsFold self (list_of_arms arms.now) table.now ended.old t ended.new) }
        ensures bits { IfOk result (λ t. ArmsMeter self (list_of_arms arms.now) table.now ended.old meter.old meter.new) }
        ensures vars { IfOk result (λ t. t.vars ≡ table.now.vars) }
        ensures cause { IfErr result (ArmsBlame self (list_of_arms arms.now) table.now ended.old) }
    {
        let mut out = Table::new(self.alloc, table.vars);
        for (count, block) in &arms.arms {
            let side = weighed(self.alloc, part, *count, table)?;
            let left = self.block(block, side, ended, meter)?;
            merge(&mut out, left)?;
        }
        Ok(out)
    }

    #[cycle(fold)]
    fn while_loop(
        self,
        body: &Block,
        e: &Expr,
        table: Table,
        ended: &mut Ended,
        meter: &mut Meter,
    ) -> Result<Table, MassError>
        requires reads { ExpressionBelow (expression_of e.now) table.vars }
        requires below { BlockBelow table.vars (statements_of body.now) }
        requires weights { BlockIsWeighed (statements_of body.now) }
        ensures ok { IfOk result
            (λ t. LoopFolds self (expression_of e.now) (statements_of body.now) table ended.old t ended.new) }
        ensures bits { IfOk result (λ t.
            LoopMeters self (expression_of e.now) (statements_of body.now) table ended.old meter.old meter.new) }
        ensures vars { IfOk result (λ t. t.vars ≡ table.vars) }
        ensures cause { IfErr result (LoopBlames self (expression_of e.now) (statements_of body.now) table ended.old) }
    {
        let mut exits = Table::new(self.alloc, table.vars);
        let mut now = table;
        for _ in 0..self.turns {
            if now.states.len() == 0 {
                return Ok(exits);
            }
            let (first, second) = split(self.alloc, e, now, ended)?;
            merge(&mut exits, second)?;
            now = self.block(body, first, ended, meter)?;
        }
        let (first, second) = split(self.alloc, e, now, ended)?;
        merge(&mut exits, second)?;
        end_all(Gone::Turns, first, ended)?;
        Ok(exits)
    }
}
