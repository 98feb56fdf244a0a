// A table through a block, in the limit of turns.

ghost use Rattle.std.specs.Prelude.{◌≡◌, ◌<◌, ◌≤◌, [], length, None, IfOk, OnOk};
ghost use Rattle.std.specs.List.{sum};
ghost use Rattle.numbers.specs.Fraction.{IsEqual};
ghost use Rattle.gcl_core.specs.meaning.Arms.{parts_of};
ghost use Rattle.gcl_core.specs.meaning.Bounds.{StatementIsWeighed, BlockIsWeighed, ArmsAreWeighed, StatementBelow, BlockBelow, ArmsBelow, ExpressionBelow, AreParts};
ghost use Rattle.gcl_core.specs.meaning.Views.{expression_of, statement_of, statements_of, list_of_arms};
ghost use Rattle.gcl_core.specs.meaning.Value.{value_of};
ghost use Rattle.unlimited_law.specs.Alike.{Alike};
ghost use Rattle.unlimited_law.specs.Settling.{LoopSettles, StatementSettles, BlockSettles, ArmsSettle};
ghost use Rattle.mass_fold.specs.inner.Amounts.{PutGives};
ghost use Rattle.exact_fold.specs.inner.Between.{between};
ghost use Rattle.exact_fold.specs.inner.Settled.{SettlesFrom};
ghost use Rattle.exact_fold.specs.inner.Turning.{TurnsTo, IsClosed, StaysIn, keys_in};

use crate::early::walked_to;
use crate::error::SettleError;
use crate::finding::{Found, Seen, copied, put};
use crate::parts::{Parts, drawn};
use crate::turning::{above, all_stand, alone, is_none, leaving, passes, same};
use gcl_core::{Arms, Block, Expr, Stmt};
use mass_fold::choosing::{sides, total, weighed};
use mass_fold::{
    Attempts, Ended, Fold, Gone, MOST_STATES, State, Table, assign, end_all, merge, split,
};
use numbers::Frac;
use std::alloc::Global;

/// The table after a block, as the turns of its loops grow without bound; what ended is added.
#[cycle(settle)]
pub fn settle_block(
    alloc: Global,
    block: &Block,
    table: Table,
    ended: &mut Ended,
    made: &mut Parts,
) -> Result<Table, SettleError>
    requires below { BlockBelow table.vars (statements_of block.now) }
    requires weights { BlockIsWeighed (statements_of block.now) }
    ensures ok { IfOk result (λ t. SettlesFrom (BlockSettles Alike Alike (statements_of block.now))
        table.states.entries ended.old t.states.entries ended.new) }
    ensures vars { IfOk result (λ t. t.vars ≡ table.vars) }
{
    let mut now = table;
    let mut from = 0;
    while from < block.stmts.len() {
        let to = walked_to(block, from, &now);
        now = settle_from(alloc, block, from, to, now, ended, made)?;
        from = to;
    }
    Ok(now)
}

// The table after the statements of a block from one place to another.
#[cycle(settle)]
fn settle_between(
    alloc: Global,
    block: &Block,
    from: usize,
    to: usize,
    table: Table,
    ended: &mut Ended,
    made: &mut Parts,
) -> Result<Table, SettleError>
    requires below { BlockBelow table.vars (statements_of block.now) }
    requires weights { BlockIsWeighed (statements_of block.now) }
    requires inside { to ≤ length block.now.stmts.items }
    ensures ok { IfOk result (λ t. SettlesFrom (BlockSettles Alike Alike (between from to block.now.stmts.items))
        table.states.entries ended.old t.states.entries ended.new) }
    ensures vars { IfOk result (λ t. t.vars ≡ table.vars) }
{
    let mut now = table;
    for at in from..to {
        now = settle_stmt(alloc, &block.stmts[at], now, ended, made)?;
    }
    Ok(now)
}

// The same, state by state where these are several statements.
#[cycle(settle)]
fn settle_from(
    alloc: Global,
    block: &Block,
    from: usize,
    to: usize,
    table: Table,
    ended: &mut Ended,
    made: &mut Parts,
) -> Result<Table, SettleError>
    requires below { BlockBelow table.vars (statements_of block.now) }
    requires weights { BlockIsWeighed (statements_of block.now) }
    requires above { from < to }
    requires inside { to ≤ length block.now.stmts.items }
    ensures ok { IfOk result (λ t. SettlesFrom (BlockSettles Alike Alike (between from to block.now.stmts.items))
        table.states.entries ended.old t.states.entries ended.new) }
    ensures vars { IfOk result (λ t. t.vars ≡ table.vars) }
{
    if to - from == 1 {
        return settle_between(alloc, block, from, to, table, ended, made);
    }
    let mut out = Table::new(alloc, table.vars);
    for (state, weight) in table.states {
        let one = one_state(alloc, out.vars, state, weight)?;
        let left = settle_between(alloc, block, from, to, one, ended, made)?;
        merge(&mut out, left)?;
    }
    Ok(out)
}

/// The table after a statement.
#[cycle(settle)]
#[tactic(auto, using(gcl_core::proofs::ViewLemmas::views))]
pub fn settle_stmt(
    alloc: Global,
    statement: &Stmt,
    table: Table,
    ended: &mut Ended,
    made: &mut Parts,
) -> Result<Table, SettleError>
    requires below { StatementBelow table.vars (statement_of statement.now) }
    requires weights { StatementIsWeighed (statement_of statement.now) }
    ensures ok { IfOk result (λ t. SettlesFrom (StatementSettles Alike Alike (statement_of statement.now))
        table.states.entries ended.old t.states.entries ended.new) }
    ensures vars { IfOk result (λ t. t.vars ≡ table.vars) }
{
    let _count = table.states.len();
    match statement {
        Stmt::Skip => Ok(table),
        Stmt::Set(x, e) => Ok(assign(alloc, *x, e, table, ended)?),
        Stmt::Uniform(x, e) => {
            made.add(drawn(e, &table))?;
            Ok(unlimited(alloc).draw(*x, e, table, ended)?)
        }
        Stmt::Observe(e) => {
            let (first, second) = split(alloc, e, table, ended)?;
            end_all(Gone::Failed, second, ended)?;
            Ok(first)
        }
        Stmt::If(e, a, c) => {
            let (first, second) = split(alloc, e, table, ended)?;
            let mut left = settle_block(alloc, a, first, ended, made)?;
            let right = settle_block(alloc, c, second, ended, made)?;
            merge(&mut left, right)?;
            Ok(left)
        }
        Stmt::While(e, body) => settle_loop(alloc, body, e, table, ended, made),
        Stmt::Choice(p, a, c) => {
            let (first, second) = sides(alloc, *p, Attempts { most: None }, &table, ended)?;
            let mut left = settle_block(alloc, a, first, ended, made)?;
            let right = settle_block(alloc, c, second, ended, made)?;
            merge(&mut left, right)?;
            Ok(left)
        }
        Stmt::Choose(arms) => {
            let part = one_part(total(arms));
            settle_arms(alloc, arms, &part, &table, ended, made)
        }
    }
}

// One state by itself.
fn one_state(alloc: Global, vars: u32, state: State, weight: Frac) -> Result<Table, SettleError>
    requires { length state ≡ vars }
    ensures one { IfOk result (λ t. PutGives [] t.states.entries state weight) }
    ensures vars { IfOk result (λ t. t.vars ≡ vars) }
{
    let mut one = Table::new(alloc, vars);
    one.put(state, weight)?;
    Ok(one)
}

// A fold in which draws take as many attempts as it takes.
fn unlimited(alloc: Global) -> Fold
    ensures { result.attempts.most ≡ None }
{
    Fold {
        alloc,
        turns: 0,
        attempts: Attempts { most: None },
    }
}

// The weight of one part of a draw with so many.
fn one_part(count: u64) -> Frac
    requires { 1 ≤ count }
    ensures above { 1 ≤ result.0 }
    ensures equal { IsEqual result (1, count) }
{
    Frac::of(1, u128::from(count))
}

// The arms of a choice among several, one after the other, each by its part.
#[cycle(settle)]
fn settle_arms(
    alloc: Global,
    arms: &Arms,
    part: &Frac,
    table: &Table,
    ended: &mut Ended,
    made: &mut Parts,
) -> Result<Table, SettleError>
    requires below { ArmsBelow table.now.vars (list_of_arms arms.now) }
    requires parts { AreParts (parts_of (list_of_arms arms.now)) }
    requires weights { ArmsAreWeighed (list_of_arms arms.now) }
    requires above { 1 ≤ part.now.0 }
    requires equal { IsEqual part.now (1, sum (parts_of (list_of_arms arms.now))) }
    ensures ok { IfOk result (λ t. SettlesFrom
        (ArmsSettle Alike Alike (sum (parts_of (list_of_arms arms.now))) (list_of_arms arms.now))
        table.now.states.entries ended.old t.states.entries ended.new) }
    ensures vars { IfOk result (λ t. t.vars ≡ table.now.vars) }
{
    let mut out = Table::new(alloc, table.vars);
    for (count, block) in &arms.arms {
        let side = weighed(alloc, part, *count, table)?;
        let left = settle_block(alloc, block, side, ended, made)?;
        merge(&mut out, left)?;
    }
    Ok(out)
}

// A loop: its visits are found, and one turn of its body shows that they are right.
#[cycle(settle)]
fn settle_loop(
    alloc: Global,
    body: &Block,
    guard: &Expr,
    table: Table,
    ended: &mut Ended,
    made: &mut Parts,
) -> Result<Table, SettleError>
    requires reads { ExpressionBelow (expression_of guard.now) table.vars }
    requires below { BlockBelow table.vars (statements_of body.now) }
    requires weights { BlockIsWeighed (statements_of body.now) }
    ensures ok { IfOk result (λ t. SettlesFrom
        (LoopSettles Alike Alike (value_of (expression_of guard.now)) (BlockSettles Alike Alike (statements_of body.now)))
        table.states.entries ended.old t.states.entries ended.new) }
    ensures vars { IfOk result (λ t. t.vars ≡ table.vars) }
{
    let start = start_of(alloc, guard, &table)?;
    let seen = explored(alloc, body, guard, &start, made)?;
    let found = seen.found(alloc, &start)?;
    check_closed(alloc, body, guard, &found.closed, made)?;
    turned(alloc, body, guard, found, table, ended, made)
}

// One turn from the visits. What it leads back and what comes in are the visits again, but for what is never left.
#[cycle(settle)]
fn turned(
    alloc: Global,
    body: &Block,
    guard: &Expr,
    found: Found,
    table: Table,
    ended: &mut Ended,
    made: &mut Parts,
) -> Result<Table, SettleError>
    requires reads { ExpressionBelow (expression_of guard.now) table.vars }
    requires below { BlockBelow table.vars (statements_of body.now) }
    requires weights { BlockIsWeighed (statements_of body.now) }
    requires vars { found.visits.vars ≡ table.vars }
    ensures ok { IfOk result (λ t. TurnsTo (value_of (expression_of guard.now)) (BlockSettles Alike Alike (statements_of body.now))
        found.closed.states.entries table.states.entries ended.old t.states.entries ended.new) }
    ensures vars { IfOk result (λ t. t.vars ≡ table.vars) }
{
    if !above(&found.visits) || !same(&found.visits, &found.copy) {
        return Err(SettleError::NotSettled);
    }
    let next = settle_block(alloc, body, found.visits, ended, made)?;
    let mut all = table;
    merge(&mut all, next)?;
    let seen = leaving(alloc, &found.closed, all)?;
    let (on, exits) = split(alloc, guard, seen, ended)?;
    if !same(&on, &found.copy) {
        return Err(SettleError::NotSettled);
    }
    Ok(exits)
}

// The entries where the guard holds.
fn start_of(alloc: Global, guard: &Expr, table: &Table) -> Result<Table, SettleError>
    requires { ExpressionBelow (expression_of guard.now) table.now.vars }
    ensures { IfOk result (λ t. t.vars ≡ table.now.vars) }
{
    let copy = copied(alloc, table)?;
    let mut none = Ended::none();
    let (first, _) = split(alloc, guard, copy, &mut none)?;
    Ok(first)
}

// Where one turn leads from a state, as far as the guard holds there again.
#[cycle(settle)]
fn led(
    alloc: Global,
    body: &Block,
    guard: &Expr,
    vars: u32,
    state: &State,
    made: &mut Parts,
) -> Result<Table, SettleError>
    requires reads { ExpressionBelow (expression_of guard.now) vars }
    requires below { BlockBelow vars (statements_of body.now) }
    requires weights { BlockIsWeighed (statements_of body.now) }
{
    let mut one = Table::new(alloc, vars);
    put(&mut one, state.copy(alloc)?, Frac::of(1, 1))?;
    let mut none = Ended::none();
    let next = settle_block(alloc, body, one, &mut none, made)?;
    let (first, _) = split(alloc, guard, next, &mut none)?;
    Ok(first)
}

// The states that a loop comes to, and where one turn leads from each.
#[cycle(settle)]
fn explored(
    alloc: Global,
    body: &Block,
    guard: &Expr,
    start: &Table,
    made: &mut Parts,
) -> Result<Seen, SettleError>
    requires reads { ExpressionBelow (expression_of guard.now) start.now.vars }
    requires below { BlockBelow start.now.vars (statements_of body.now) }
    requires weights { BlockIsWeighed (statements_of body.now) }
{
    let mut seen = Seen::none(alloc);
    seen.enlist(alloc, start)?;
    for i in 0..MOST_STATES {
        if i >= seen.states.len() {
            return Ok(seen);
        }
        let state = seen.states[i].copy(alloc)?;
        let next = led(alloc, body, guard, start.vars, &state, made)?;
        made.add(next.states.len() as u64)?;
        seen.lead(alloc, i as u64, &next)?;
    }
    if seen.states.len() > MOST_STATES {
        return Err(SettleError::TooManyStates);
    }
    Ok(seen)
}

// One turn of the body from a state of the closed ones stays in them.
#[cycle(settle)]
fn check_state(
    alloc: Global,
    body: &Block,
    guard: &Expr,
    closed: &Table,
    state: &State,
    made: &mut Parts,
) -> Result<(), SettleError>
    requires reads { ExpressionBelow (expression_of guard.now) closed.now.vars }
    requires below { BlockBelow closed.now.vars (statements_of body.now) }
    requires weights { BlockIsWeighed (statements_of body.now) }
    requires sized { length state.now ≡ closed.now.vars }
    ensures { OnOk result (StaysIn (value_of (expression_of guard.now)) (BlockSettles Alike Alike (statements_of body.now))
        (keys_in closed.now.states.entries) state.now) }
{
    if !passes(guard, state) {
        return Err(SettleError::NotSettled);
    }
    let one = alone(alloc, closed.vars, state)?;
    let mut gone = Ended::none();
    let next = settle_block(alloc, body, one, &mut gone, made)?;
    if !is_none(&gone) || !all_stand(closed, &next) {
        return Err(SettleError::NotSettled);
    }
    Ok(())
}

/// No state of these is ever left.
#[cycle(settle)]
pub fn check_closed(
    alloc: Global,
    body: &Block,
    guard: &Expr,
    closed: &Table,
    made: &mut Parts,
) -> Result<(), SettleError>
    requires reads { ExpressionBelow (expression_of guard.now) closed.now.vars }
    requires below { BlockBelow closed.now.vars (statements_of body.now) }
    requires weights { BlockIsWeighed (statements_of body.now) }
    ensures { OnOk result (IsClosed (value_of (expression_of guard.now)) (BlockSettles Alike Alike (statements_of body.now))
        (keys_in closed.now.states.entries)) }
{
    for (state, _) in &closed.states {
        check_state(alloc, body, guard, closed, state, made)?;
    }
    Ok(())
}
