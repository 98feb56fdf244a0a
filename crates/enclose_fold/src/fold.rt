// A table through a block.

ghost use Rattle.std.specs.Prelude.{◌≡◌, ◌<◌, ◌≤◌, ◌+◌, length, IfOk, IfErr};
ghost use Rattle.std.specs.List.{sum};
ghost use Rattle.numbers.specs.declared.units.TheConstants.{ALL};
ghost use Rattle.gcl_core.specs.meaning.Arms.{parts_of};
ghost use Rattle.gcl_core.specs.meaning.Bounds.{StatementIsWeighed, BlockIsWeighed, ArmsAreWeighed, ExpressionBelow};
ghost use Rattle.gcl_core.specs.meaning.Bounds.{StatementBelow, BlockBelow, ArmsBelow};
ghost use Rattle.gcl_core.specs.meaning.Views.{expression_of, statement_of, statements_of, list_of_arms};
ghost use Rattle.units_law.specs.Units.{total};
ghost use Rattle.enclose_fold.specs.inner.Between.{between};
ghost use Rattle.enclose_fold.specs.inner.Ended.{units_of};
ghost use Rattle.enclose_fold.specs.inner.Exact.{DrawsOnce};
ghost use Rattle.enclose_fold.specs.inner.Folding.{BlockGives, BlockRefused, StatementGives, StatementRefused};
ghost use Rattle.enclose_fold.specs.inner.Folding.{LoopGives, LoopRefused, ArmsGive, ArmsRefused, ArmsWithin};

use crate::choosing::{side, undecided};
use crate::early::walked_to;
use crate::ended::Ended;
use crate::error::EncloseError;
use crate::steps::{all_of, assign, merge, one_state, split};
use crate::table::Table;
use gcl_core::{Arms, Block, Expr, Stmt};
use scaled_fold::Odds;
use std::alloc::Global;

/// How tables go through blocks: where their memory comes from, the most turns for each entry of a loop, and the most attempts
/// for each draw. What has ended on the way is added to what had.
#[derive(Clone, Copy)]
pub struct Fold {
    pub alloc: Global,
    pub turns: u64,
    pub attempts: Option<u64>,
}

impl Fold {
    /// The table after a block.
    #[cycle(fold)]
    pub fn block(self, b: &Block, table: Table, ended: &mut Ended) -> Result<Table, EncloseError>
        requires below { BlockBelow table.vars (statements_of b.now) }
        requires weights { BlockIsWeighed (statements_of b.now) }
        requires within { total table.states.entries + total (units_of ended.old) ≤ ALL }
        ensures ok { IfOk result (λ t. BlockGives self (statements_of b.now) table ended.old t ended.new) }
        ensures vars { IfOk result (λ t. t.vars ≡ table.vars) }
        ensures cause { IfErr result (BlockRefused self (statements_of b.now) table) }
    {
        let mut now = table;
        let mut from = 0;
        while from < b.stmts.len() {
            let to = walked_to(b, from, &now);
            now = self.from_to(b, from, to, now, ended)?;
            from = to;
        }
        Ok(now)
    }

    // The table after the statements of a block from one place to another.
    #[cycle(fold)]
    fn between(
        self,
        b: &Block,
        from: usize,
        to: usize,
        table: Table,
        ended: &mut Ended,
    ) -> Result<Table, EncloseError>
        requires below { BlockBelow table.vars (statements_of b.now) }
        requires weights { BlockIsWeighed (statements_of b.now) }
        requires inside { to ≤ length b.now.stmts.items }
        requires within { total table.states.entries + total (units_of ended.old) ≤ ALL }
        ensures ok { IfOk result (λ t. BlockGives self (between from to b.now.stmts.items) table ended.old t ended.new) }
        ensures vars { IfOk result (λ t. t.vars ≡ table.vars) }
        ensures cause { IfErr result (BlockRefused self (between from to b.now.stmts.items) table) }
    {
        let mut now = table;
        for at in from..to {
            now = self.stmt(&b.stmts[at], now, ended)?;
        }
        Ok(now)
    }

    // The same, state by state where these are several statements: a draw, and behind it what rounds nothing.
    #[cycle(fold)]
    fn from_to(
        self,
        b: &Block,
        from: usize,
        to: usize,
        table: Table,
        ended: &mut Ended,
    ) -> Result<Table, EncloseError>
        requires below { BlockBelow table.vars (statements_of b.now) }
        requires weights { BlockIsWeighed (statements_of b.now) }
        requires above { from < to }
        requires inside { to ≤ length b.now.stmts.items }
        requires once { from + 1 < to → DrawsOnce (between from to b.now.stmts.items) }
        requires within { total table.states.entries + total (units_of ended.old) ≤ ALL }
        ensures ok { IfOk result (λ t. BlockGives self (between from to b.now.stmts.items) table ended.old t ended.new) }
        ensures vars { IfOk result (λ t. t.vars ≡ table.vars) }
        ensures cause { IfErr result (BlockRefused self (between from to b.now.stmts.items) table) }
    {
        if to - from == 1 {
            return self.between(b, from, to, table, ended);
        }
        let mut out = Table::new(self.alloc, table.vars);
        for (s, w) in table.states {
            let one = one_state(self.alloc, out.vars, s, w)?;
            let left = self.between(b, from, to, one, ended)?;
            merge(&mut out, left)?;
        }
        Ok(out)
    }

    #[cycle(fold)]
    #[tactic(auto, using(gcl_core::proofs::ViewLemmas::views))]
    fn stmt(self, s: &Stmt, table: Table, ended: &mut Ended) -> Result<Table, EncloseError>
        requires below { StatementBelow table.vars (statement_of s.now) }
        requires weights { StatementIsWeighed (statement_of s.now) }
        requires within { total table.states.entries + total (units_of ended.old) ≤ ALL }
        ensures ok { IfOk result (λ t. StatementGives self (statement_of s.now) table ended.old t ended.new) }
        ensures vars { IfOk result (λ t. t.vars ≡ table.vars) }
        ensures cause { IfErr result (StatementRefused self (statement_of s.now) table) }
    {
        if table.states.len() == 0 {
            return Ok(table);
        }
        match s {
            Stmt::Skip => Ok(table),
            Stmt::Set(x, e) => assign(self.alloc, *x, e, table, ended),
            Stmt::Uniform(x, e) => self.draw(*x, e, table, ended),
            Stmt::Observe(e) => {
                let (first, second) = split(self.alloc, e, table, ended)?;
                ended.add_failed(all_of(&second));
                Ok(first)
            }
            Stmt::If(e, a, c) => {
                let (first, second) = split(self.alloc, e, table, ended)?;
                let mut left = self.block(a, first, ended)?;
                let right = self.block(c, second, ended)?;
                merge(&mut left, right)?;
                Ok(left)
            }
            Stmt::While(e, body) => self.while_loop(body, e, table, ended),
            Stmt::Choice(p, a, c) => {
                let odds = Odds::of(p.den, self.attempts);
                undecided(odds, &table, ended);
                let first = side(self.alloc, odds, p.num, &table)?;
                let second = side(self.alloc, odds, p.den - p.num, &table)?;
                let mut left = self.block(a, first, ended)?;
                let right = self.block(c, second, ended)?;
                merge(&mut left, right)?;
                Ok(left)
            }
            Stmt::Choose(arms) => {
                let odds = Odds::of(mass_fold::choosing::total(arms), self.attempts);
                undecided(odds, &table, ended);
                self.arms(arms, odds, &table, ended)
            }
        }
    }

    // The arms of a choice among several, one after the other, each by its part.
    #[cycle(fold)]
    fn arms(
        self,
        arms: &Arms,
        odds: Odds,
        table: &Table,
        ended: &mut Ended,
    ) -> Result<Table, EncloseError>
        requires below { ArmsBelow table.now.vars (list_of_arms arms.now) }
        requires weights { ArmsAreWeighed (list_of_arms arms.now) }
        requires bound { odds.bound ≡ sum (parts_of (list_of_arms arms.now)) }
        requires attempts { odds.attempts ≡ self.attempts }
        requires most { total table.now.states.entries ≤ ALL }
        requires within { ArmsWithin self (list_of_arms arms.now) table.now ended.old }
        ensures ok { IfOk result (λ t. ArmsGive self (list_of_arms arms.now) table.now ended.old t ended.new) }
        ensures vars { IfOk result (λ t. t.vars ≡ table.now.vars) }
        ensures cause { IfErr result (ArmsRefused self (list_of_arms arms.now) table.now) }
    {
        let mut out = Table::new(self.alloc, table.vars);
        for (count, block) in &arms.arms {
            let first = side(self.alloc, odds, *count, table)?;
            let left = self.block(block, first, ended)?;
            merge(&mut out, left)?;
        }
        Ok(out)
    }

    #[cycle(fold)]
    fn while_loop(
        self,
        body: &Block,
        e: &Expr,
        table: Table,
        ended: &mut Ended,
    ) -> Result<Table, EncloseError>
        requires reads { ExpressionBelow (expression_of e.now) table.vars }
        requires below { BlockBelow table.vars (statements_of body.now) }
        requires weights { BlockIsWeighed (statements_of body.now) }
        requires within { total table.states.entries + total (units_of ended.old) ≤ ALL }
        ensures ok { IfOk result
            (λ t. LoopGives self (expression_of e.now) (statements_of body.now) table ended.old t ended.new) }
        ensures vars { IfOk result (λ t. t.vars ≡ table.vars) }
        ensures cause { IfErr result (LoopRefused self (expression_of e.now) (statements_of body.now) table) }
    {
        let mut exits = Table::new(self.alloc, table.vars);
        let mut now = table;
        for _ in 0..self.turns {
            if now.states.len() == 0 {
                return Ok(exits);
            }
            let (first, second) = split(self.alloc, e, now, ended)?;
            merge(&mut exits, second)?;
            now = self.block(body, first, ended)?;
        }
        let (first, second) = split(self.alloc, e, now, ended)?;
        merge(&mut exits, second)?;
        ended.add_turns(all_of(&first));
        Ok(exits)
    }
}
