// What the check of a loop does with tables.

ghost use Rattle.std.specs.Prelude.{◌≡◌, [], true, length, IfOk};
ghost use Rattle.gcl_core.specs.meaning.Value.{value_of};
ghost use Rattle.gcl_core.specs.meaning.Bounds.{ExpressionBelow};
ghost use Rattle.gcl_core.specs.meaning.Views.{expression_of};
ghost use Rattle.table_flow.specs.Tables.{holds};
ghost use Rattle.mass_fold.specs.inner.Ended.{rows_of};
ghost use Rattle.mass_fold.specs.declared.ended.Ended.{Ended};
ghost use Rattle.mass_fold.specs.inner.Steps.{StepsTo};
ghost use Rattle.table_flow.specs.Counts.{kept_if, none_stopped};
ghost use Rattle.exact_fold.specs.inner.Settled.{AreAbove};
ghost use Rattle.exact_fold.specs.inner.Turning.{Alone, NothingIn, AllInside, inside, outside};

use crate::error::SettleError;
use gcl_core::{Expr, eval};
use mass_fold::{Ended, State, Table};
use numbers::Frac;
use std::alloc::Global;

/// Whether the state stands in the table.
pub fn stands(table: &Table, state: &State) -> bool
    ensures { result ≡ inside table.now.states.entries state.now }
{
    match table.states.get(state) {
        Some(_) => true,
        None => false,
    }
}

/// The entries whose state stands not in the other table.
pub fn leaving(alloc: Global, closed: &Table, table: Table) -> Result<Table, SettleError>
    ensures ok { IfOk result (λ t. (E : Ended) →
        StepsTo (kept_if (outside closed.now.states.entries)) none_stopped [] table.states.entries E t.states.entries E) }
    ensures vars { IfOk result (λ t. t.vars ≡ table.vars) }
{
    let mut visits = Table::new(alloc, table.vars);
    for (state, weight) in table.states {
        if !stands(closed, &state) {
            visits.put(state, weight)?;
        }
    }
    Ok(visits)
}

fn same_state(state: &State, other: &State) -> bool
    ensures { result ≡ true → state.now ≡ other.now }
{
    *state == *other
}

fn same_weight(weight: &Frac, other: &Frac) -> bool
    ensures { result ≡ true → weight.now ≡ other.now }
{
    if weight.num() != other.num() {
        return false;
    }
    weight.den() == other.den()
}

/// Whether both tables have the same entries.
pub fn same(first: &Table, second: &Table) -> bool
    ensures { result ≡ true → first.now.states.entries ≡ second.now.states.entries }
{
    let mut others = second.states.iter();
    for (state, weight) in &first.states {
        let Some((other, other_weight)) = others.next() else {
            return false;
        };
        if !same_state(state, other) {
            return false;
        }
        if !same_weight(weight, other_weight) {
            return false;
        }
    }
    others.next().is_none()
}

/// Whether each weight is above 0.
pub fn above(table: &Table) -> bool
    ensures { result ≡ true → AreAbove table.now.states.entries }
{
    for (_, weight) in &table.states {
        if weight.num() == 0 {
            return false;
        }
    }
    true
}

/// Whether the guard holds in the state.
pub fn passes(guard: &Expr, state: &State) -> bool
    requires { ExpressionBelow (expression_of guard.now) (length state.now) }
    ensures { result ≡ true → holds (value_of (expression_of guard.now)) state.now ≡ true }
{
    match eval(guard, state.values()) {
        Ok(v) => v != 0,
        Err(_) => false,
    }
}

/// One state with all weight.
pub fn alone(alloc: Global, vars: u32, state: &State) -> Result<Table, SettleError>
    requires { length state.now ≡ vars }
    ensures one { IfOk result (λ t. Alone state.now t.states.entries) }
    ensures vars { IfOk result (λ t. t.vars ≡ vars) }
{
    let mut one = Table::new(alloc, vars);
    one.put(state.copy(alloc)?, Frac::of(1, 1))?;
    Ok(one)
}

/// Whether nothing has ended.
pub fn is_none(ended: &Ended) -> bool
    ensures { result ≡ true → NothingIn (rows_of ended.now) }
{
    ended.failed.num() == 0
        && ended.overflow.num() == 0
        && ended.divisor.num() == 0
        && ended.bound.num() == 0
        && ended.turns.num() == 0
        && ended.attempts.num() == 0
}

/// Whether each state of the second table stands in the first.
pub fn all_stand(closed: &Table, table: &Table) -> bool
    ensures { result ≡ true → AllInside closed.now.states.entries table.now.states.entries }
{
    for (state, _) in &table.states {
        if !stands(closed, state) {
            return false;
        }
    }
    true
}
