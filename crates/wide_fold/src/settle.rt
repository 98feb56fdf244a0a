// A block in wide fractions, in the limit of turns.

ghost use Rattle.std.specs.Prelude.{◌≡◌, ◌≤◌, length, IfOk, OnOk};
ghost use Rattle.std.specs.List.{sum};
ghost use Rattle.gcl_core.specs.meaning.Arms.{parts_of};
ghost use Rattle.gcl_core.specs.meaning.Bounds.{StatementIsWeighed, BlockIsWeighed, ArmsAreWeighed, StatementBelow, BlockBelow, ArmsBelow, ExpressionBelow};
ghost use Rattle.gcl_core.specs.meaning.Value.{value_of};
ghost use Rattle.gcl_core.specs.meaning.Views.{expression_of, statement_of, statements_of, list_of_arms};
ghost use Rattle.unlimited_law.specs.Alike.{Alike};
ghost use Rattle.unlimited_law.specs.Settling.{LoopSettles, StatementSettles, BlockSettles, ArmsSettle};
ghost use Rattle.exact_fold.specs.inner.Settled.{SettlesFrom};
ghost use Rattle.exact_fold.specs.inner.Turning.{TurnsTo, IsClosed, StaysIn, keys_in};

use crate::depth::Depth;
use crate::ended::WideEnded;
use crate::error::WideFoldError;
use crate::finding::{entered, led};
use crate::seen::{Seen, single};
use crate::sides::{side, sides};
use crate::sources::{block_from_each, from_each};
use crate::table::WideTable;
use crate::turning::{above, all_stand, leaving, merge, same, split};
use crate::work::Work;
use exact_fold::settle::check_closed;
use exact_fold::turning::passes;
use gcl_core::{Arms, Block, Expr, Stmt};
use mass_fold::choosing::total;
use mass_fold::{MOST_STATES, State, Table};
use std::alloc::Global;

/// What is said of a loop: its visits where the guard holds, twice, and the states that are never left.
#[derive(Drop)]
pub struct WideFound {
    pub visits: WideTable,
    pub copy: WideTable,
    pub closed: Table,
}

/// The table after a block, as the turns of its loops grow without bound; what ended is added.
#[cycle(settle)]
pub fn settle_block(
    alloc: Global,
    block: &Block,
    table: WideTable,
    ended: &mut WideEnded,
    work: &mut Work,
    depth: Depth,
) -> Result<WideTable, WideFoldError>
    requires below { BlockBelow table.vars (statements_of block.now) }
    requires weights { BlockIsWeighed (statements_of block.now) }
    ensures ok { IfOk result (λ t. SettlesFrom (BlockSettles Alike Alike (statements_of block.now))
        table.states.entries ended.old t.states.entries ended.new) }
    ensures vars { IfOk result (λ t. t.vars ≡ table.vars) }
{
    let mut now = table;
    for statement in &block.stmts {
        now = settle_stmt(alloc, statement, now, ended, work, depth)?;
    }
    Ok(now)
}

// The table after a statement.
#[cycle(settle)]
#[tactic(auto, using(gcl_core::proofs::ViewLemmas::views))]
fn settle_stmt(
    alloc: Global,
    statement: &Stmt,
    table: WideTable,
    ended: &mut WideEnded,
    work: &mut Work,
    depth: Depth,
) -> Result<WideTable, WideFoldError>
    requires below { StatementBelow table.vars (statement_of statement.now) }
    requires weights { StatementIsWeighed (statement_of statement.now) }
    ensures ok { IfOk result (λ t. SettlesFrom (StatementSettles Alike Alike (statement_of statement.now))
        table.states.entries ended.old t.states.entries ended.new) }
    ensures vars { IfOk result (λ t. t.vars ≡ table.vars) }
{
    if depth.takes_each(statement) {
        return from_each(alloc, statement, &table, ended, work);
    }
    match statement {
        Stmt::Skip | Stmt::Set(_, _) | Stmt::Uniform(_, _) | Stmt::Observe(_) => {
            from_each(alloc, statement, &table, ended, work)
        }
        Stmt::If(e, a, c) => {
            let (first, second) = split(alloc, e, table, ended)?;
            let mut left = settle_block(alloc, a, first, ended, work, depth)?;
            let right = settle_block(alloc, c, second, ended, work, depth)?;
            merge(alloc, &mut left, right, work)?;
            Ok(left)
        }
        Stmt::While(e, body) => settle_while(alloc, body, e, table, ended, work, depth),
        Stmt::Choice(p, a, c) => {
            let (first, second) = sides(alloc, *p, &table, work)?;
            let mut left = settle_block(alloc, a, first, ended, work, depth)?;
            let right = settle_block(alloc, c, second, ended, work, depth)?;
            merge(alloc, &mut left, right, work)?;
            Ok(left)
        }
        Stmt::Choose(arms) => settle_arms(alloc, arms, total(arms), &table, ended, work, depth),
    }
}

// The arms of a choice among several, one after the other, each by its part.
#[cycle(settle)]
fn settle_arms(
    alloc: Global,
    arms: &Arms,
    all: u64,
    table: &WideTable,
    ended: &mut WideEnded,
    work: &mut Work,
    depth: Depth,
) -> Result<WideTable, WideFoldError>
    requires below { ArmsBelow table.now.vars (list_of_arms arms.now) }
    requires weights { ArmsAreWeighed (list_of_arms arms.now) }
    requires positive { 1 ≤ all }
    requires all { all ≡ sum (parts_of (list_of_arms arms.now)) }
    ensures ok { IfOk result (λ t. SettlesFrom
        (ArmsSettle Alike Alike (sum (parts_of (list_of_arms arms.now))) (list_of_arms arms.now))
        table.now.states.entries ended.old t.states.entries ended.new) }
    ensures vars { IfOk result (λ t. t.vars ≡ table.now.vars) }
{
    let mut out = WideTable::new(alloc, table.vars);
    for (count, block) in &arms.arms {
        let part = side(alloc, *count, all, table, work)?;
        let left = settle_block(alloc, block, part, ended, work, depth)?;
        merge(alloc, &mut out, left, work)?;
    }
    Ok(out)
}

// A loop, with the visits that are found.
#[cycle(settle)]
fn settle_while(
    alloc: Global,
    body: &Block,
    guard: &Expr,
    table: WideTable,
    ended: &mut WideEnded,
    work: &mut Work,
    depth: Depth,
) -> Result<WideTable, WideFoldError>
    requires reads { ExpressionBelow (expression_of guard.now) table.vars }
    requires below { BlockBelow table.vars (statements_of body.now) }
    requires weights { BlockIsWeighed (statements_of body.now) }
    ensures ok { IfOk result (λ t. SettlesFrom
        (LoopSettles Alike Alike (value_of (expression_of guard.now)) (BlockSettles Alike Alike (statements_of body.now)))
        table.states.entries ended.old t.states.entries ended.new) }
    ensures vars { IfOk result (λ t. t.vars ≡ table.vars) }
{
    let seen = explored(alloc, body, guard, &table, work, depth)?;
    let found = seen.found(alloc, table.vars, work)?;
    settle_loop(alloc, body, guard, found, table, ended, work, depth)
}

/// A loop with the visits that are said of it, where one turn of its body shows that they are right.
#[cycle(settle)]
pub fn settle_loop(
    alloc: Global,
    body: &Block,
    guard: &Expr,
    found: WideFound,
    table: WideTable,
    ended: &mut WideEnded,
    work: &mut Work,
    depth: Depth,
) -> Result<WideTable, WideFoldError>
    requires reads { ExpressionBelow (expression_of guard.now) table.vars }
    requires below { BlockBelow table.vars (statements_of body.now) }
    requires weights { BlockIsWeighed (statements_of body.now) }
    requires visits { found.visits.vars ≡ table.vars }
    requires closed { found.closed.vars ≡ table.vars }
    ensures ok { IfOk result (λ t. SettlesFrom
        (LoopSettles Alike Alike (value_of (expression_of guard.now)) (BlockSettles Alike Alike (statements_of body.now)))
        table.states.entries ended.old t.states.entries ended.new) }
    ensures vars { IfOk result (λ t. t.vars ≡ table.vars) }
{
    check_never_left(alloc, body, guard, &found.closed, work, depth)?;
    turned(alloc, body, guard, found, table, ended, work, depth)
}

// One turn from the visits. What it leads back and what comes in are the visits again, but for what is never left.
#[cycle(settle)]
fn turned(
    alloc: Global,
    body: &Block,
    guard: &Expr,
    found: WideFound,
    table: WideTable,
    ended: &mut WideEnded,
    work: &mut Work,
    depth: Depth,
) -> Result<WideTable, WideFoldError>
    requires reads { ExpressionBelow (expression_of guard.now) table.vars }
    requires below { BlockBelow table.vars (statements_of body.now) }
    requires weights { BlockIsWeighed (statements_of body.now) }
    requires vars { found.visits.vars ≡ table.vars }
    ensures ok { IfOk result (λ t. TurnsTo (value_of (expression_of guard.now)) (BlockSettles Alike Alike (statements_of body.now))
        found.closed.states.entries table.states.entries ended.old t.states.entries ended.new) }
    ensures vars { IfOk result (λ t. t.vars ≡ table.vars) }
{
    if !above(&found.visits) || !same(&found.visits, &found.copy) {
        return Err(WideFoldError::NotSettled);
    }
    let next = settle_turn(alloc, body, found.visits, ended, work, depth)?;
    let mut all = table;
    merge(alloc, &mut all, next, work)?;
    let seen = leaving(alloc, &found.closed, all)?;
    let (on, exits) = split(alloc, guard, seen, ended)?;
    if !same(&on, &found.copy) {
        return Err(WideFoldError::NotSettled);
    }
    Ok(exits)
}

// The table after one turn of a loop.
#[cycle(settle)]
fn settle_turn(
    alloc: Global,
    body: &Block,
    table: WideTable,
    ended: &mut WideEnded,
    work: &mut Work,
    depth: Depth,
) -> Result<WideTable, WideFoldError>
    requires below { BlockBelow table.vars (statements_of body.now) }
    requires weights { BlockIsWeighed (statements_of body.now) }
    ensures ok { IfOk result (λ t. SettlesFrom (BlockSettles Alike Alike (statements_of body.now))
        table.states.entries ended.old t.states.entries ended.new) }
    ensures vars { IfOk result (λ t. t.vars ≡ table.vars) }
{
    if depth.is_all() {
        return settle_block(alloc, body, table, ended, work, depth);
    }
    block_from_each(alloc, body, table, ended, work)
}

// The states that a loop comes to from a table, and where one turn leads from each.
#[cycle(settle)]
fn explored(
    alloc: Global,
    body: &Block,
    guard: &Expr,
    table: &WideTable,
    work: &mut Work,
    depth: Depth,
) -> Result<Seen, WideFoldError>
    requires reads { ExpressionBelow (expression_of guard.now) table.now.vars }
    requires below { BlockBelow table.now.vars (statements_of body.now) }
    requires weights { BlockIsWeighed (statements_of body.now) }
{
    let mut seen = Seen::none(alloc);
    seen.enter(alloc, &entered(alloc, guard, table)?, table)?;
    for i in 0..MOST_STATES {
        if i >= seen.states.len() {
            return Ok(seen);
        }
        let state = seen.states[i].copy(alloc)?;
        lead(
            alloc, body, guard, table.vars, &state, &mut seen, i as u64, work, depth,
        )?;
    }
    if seen.states.len() > MOST_STATES {
        return Err(WideFoldError::TooManyStates);
    }
    Ok(seen)
}

// One turn leads on from a state, which has this number.
#[cycle(settle)]
fn lead(
    alloc: Global,
    body: &Block,
    guard: &Expr,
    vars: u32,
    state: &State,
    seen: &mut Seen,
    number: u64,
    work: &mut Work,
    depth: Depth,
) -> Result<(), WideFoldError>
    requires reads { ExpressionBelow (expression_of guard.now) vars }
    requires below { BlockBelow vars (statements_of body.now) }
    requires weights { BlockIsWeighed (statements_of body.now) }
{
    if depth.is_all() {
        let next = led_on(alloc, body, guard, vars, state, work, depth)?;
        work.parts.add(next.states.len() as u64)?;
        return seen.lead_on(alloc, number, &next);
    }
    let next = led(alloc, body, guard, vars, state, &mut work.parts)?;
    work.parts.add(next.states.len() as u64)?;
    seen.lead(alloc, number, &next)
}

// Where one turn leads from a state, as far as the guard holds there again, in wide fractions.
#[cycle(settle)]
fn led_on(
    alloc: Global,
    body: &Block,
    guard: &Expr,
    vars: u32,
    state: &State,
    work: &mut Work,
    depth: Depth,
) -> Result<WideTable, WideFoldError>
    requires reads { ExpressionBelow (expression_of guard.now) vars }
    requires below { BlockBelow vars (statements_of body.now) }
    requires weights { BlockIsWeighed (statements_of body.now) }
{
    let one = single(alloc, vars, state)?;
    let mut gone = WideEnded::none(alloc)?;
    let next = settle_block(alloc, body, one, &mut gone, work, depth)?;
    let (first, _) = split(alloc, guard, next, &mut gone)?;
    Ok(first)
}

// No state of these is ever left.
#[cycle(settle)]
fn check_never_left(
    alloc: Global,
    body: &Block,
    guard: &Expr,
    closed: &Table,
    work: &mut Work,
    depth: Depth,
) -> Result<(), WideFoldError>
    requires reads { ExpressionBelow (expression_of guard.now) closed.now.vars }
    requires below { BlockBelow closed.now.vars (statements_of body.now) }
    requires weights { BlockIsWeighed (statements_of body.now) }
    ensures { OnOk result (IsClosed (value_of (expression_of guard.now)) (BlockSettles Alike Alike (statements_of body.now))
        (keys_in closed.now.states.entries)) }
{
    if depth.is_all() {
        return check_each(alloc, body, guard, closed, work, depth);
    }
    check_closed(alloc, body, guard, closed, &mut work.parts)?;
    Ok(())
}

// The same, by turns in wide fractions.
#[cycle(settle)]
fn check_each(
    alloc: Global,
    body: &Block,
    guard: &Expr,
    closed: &Table,
    work: &mut Work,
    depth: Depth,
) -> Result<(), WideFoldError>
    requires reads { ExpressionBelow (expression_of guard.now) closed.now.vars }
    requires below { BlockBelow closed.now.vars (statements_of body.now) }
    requires weights { BlockIsWeighed (statements_of body.now) }
    ensures { OnOk result (IsClosed (value_of (expression_of guard.now)) (BlockSettles Alike Alike (statements_of body.now))
        (keys_in closed.now.states.entries)) }
{
    for (state, _) in &closed.states {
        check_state(alloc, body, guard, closed, state, work, depth)?;
    }
    Ok(())
}

// One turn of the body from a state of the closed ones stays in them.
#[cycle(settle)]
fn check_state(
    alloc: Global,
    body: &Block,
    guard: &Expr,
    closed: &Table,
    state: &State,
    work: &mut Work,
    depth: Depth,
) -> Result<(), WideFoldError>
    requires reads { ExpressionBelow (expression_of guard.now) closed.now.vars }
    requires below { BlockBelow closed.now.vars (statements_of body.now) }
    requires weights { BlockIsWeighed (statements_of body.now) }
    requires sized { length state.now ≡ closed.now.vars }
    ensures { OnOk result (StaysIn (value_of (expression_of guard.now)) (BlockSettles Alike Alike (statements_of body.now))
        (keys_in closed.now.states.entries) state.now) }
{
    if !passes(guard, state) {
        return Err(WideFoldError::NotSettled);
    }
    let one = WideTable::alone(alloc, closed.vars, state)?;
    let mut gone = WideEnded::none(alloc)?;
    let next = settle_block(alloc, body, one, &mut gone, work, depth)?;
    if !gone.is_none() || !all_stand(closed, &next) {
        return Err(WideFoldError::NotSettled);
    }
    Ok(())
}
