// What the check of a loop does with tables in wide fractions.

ghost use Rattle.std.specs.Prelude.{◌≡◌, [], true, IfOk, OnOk};
ghost use Rattle.gcl_core.specs.meaning.Value.{value_of};
ghost use Rattle.gcl_core.specs.meaning.Bounds.{ExpressionBelow};
ghost use Rattle.gcl_core.specs.meaning.Views.{expression_of};
ghost use Rattle.table_flow.specs.Tables.{holds, fails};
ghost use Rattle.table_flow.specs.Counts.{kept_if, stopped, all_kept, none_stopped};
ghost use Rattle.mass_fold.specs.declared.ended.Ended.{Ended};
ghost use Rattle.mass_fold.specs.inner.Ended.{end_of, fault_end};
ghost use Rattle.mass_fold.specs.inner.Steps.{StepsTo};
ghost use Rattle.exact_fold.specs.inner.Settled.{AreAbove};
ghost use Rattle.exact_fold.specs.inner.Turning.{AllInside, outside};

use crate::ended::WideEnded;
use crate::error::WideFoldError;
use crate::table::WideTable;
use crate::work::Work;
use exact_fold::turning::stands;
use gcl_core::{Expr, Fault, eval};
use mass_fold::{Gone, State, Table};
use std::alloc::Global;
use std::cmp::Ordering;
use wide_numbers::{Wide, WideFraction};

/// The entries whose state stands not in the other table.
pub fn leaving(alloc: Global, closed: &Table, table: WideTable) -> Result<WideTable, WideFoldError>
    ensures ok { IfOk result (λ t. (E : Ended) →
        StepsTo (kept_if (outside closed.now.states.entries)) none_stopped [] table.states.entries E t.states.entries E) }
    ensures vars { IfOk result (λ t. t.vars ≡ table.vars) }
{
    let mut visits = WideTable::new(alloc, table.vars);
    for (state, weight) in table.states {
        if !stands(closed, &state) {
            visits.put(alloc, state, weight)?;
        }
    }
    Ok(visits)
}

/// All entries of one table come into another, where equal states become one with both weights.
pub fn merge(
    alloc: Global,
    into: &mut WideTable,
    table: WideTable,
    work: &mut Work,
) -> Result<(), WideFoldError>
    requires { table.vars ≡ into.old.vars }
    ensures ok { OnOk result
        ((E : Ended) → StepsTo all_kept none_stopped into.old.states.entries table.states.entries E into.new.states.entries E) }
    ensures vars { into.new.vars ≡ into.old.vars }
{
    for (state, weight) in table.states {
        work.work_with(1, &weight)?;
        into.put(alloc, state, weight)?;
    }
    Ok(())
}

/// The entries where the guard holds, and those where it does not. A state in which it is a fault is added to `ended`.
pub fn split(
    alloc: Global,
    guard: &Expr,
    table: WideTable,
    ended: &mut WideEnded,
) -> Result<(WideTable, WideTable), WideFoldError>
    requires { ExpressionBelow (expression_of guard.now) table.vars }
    ensures first { IfOk result (λ t. StepsTo (kept_if (holds (value_of (expression_of guard.now))))
        (stopped (value_of (expression_of guard.now))) [] table.states.entries ended.old t.0.states.entries ended.new) }
    ensures second { IfOk result (λ t. StepsTo (kept_if (fails (value_of (expression_of guard.now))))
        (stopped (value_of (expression_of guard.now))) [] table.states.entries ended.old t.1.states.entries ended.new) }
    ensures vars { IfOk result (λ t. (t.0.vars ≡ table.vars) × (t.1.vars ≡ table.vars)) }
{
    let mut first = WideTable::new(alloc, table.vars);
    let mut second = WideTable::new(alloc, table.vars);
    for (s, f) in table.states {
        match eval(guard, s.values()) {
            Ok(v) => {
                if v == 0 {
                    second.put(alloc, s, f)?;
                } else {
                    first.put(alloc, s, f)?;
                }
            }
            Err(fault) => ended.add(alloc, ended_by(fault), &f)?,
        }
    }
    Ok((first, second))
}

// The way to end that a fault is.
fn ended_by(fault: Fault) -> Gone
    ensures { end_of result ≡ fault_end fault }
{
    match fault {
        Fault::Overflow => Gone::Overflow,
        Fault::ZeroDivisor => Gone::Divisor,
        Fault::BadBound => Gone::Bound,
    }
}

fn same_state(state: &State, other: &State) -> bool
    ensures { result ≡ true → state.now ≡ other.now }
{
    *state == *other
}

fn same_number(number: &Wide, other: &Wide) -> bool
    ensures { result ≡ true → number.now ≡ other.now }
{
    match number.compare(other) {
        Ordering::Equal => true,
        _ => false,
    }
}

fn same_weight(weight: &WideFraction, other: &WideFraction) -> bool
    ensures { result ≡ true → weight.now ≡ other.now }
{
    if !same_number(weight.num(), other.num()) {
        return false;
    }
    same_number(weight.den(), other.den())
}

/// Whether both tables have the same entries.
pub fn same(first: &WideTable, second: &WideTable) -> bool
    ensures { result ≡ true → first.now.states.entries ≡ second.now.states.entries }
{
    let mut others = second.states.iter();
    for (state, weight) in &first.states {
        let Some((other, other_weight)) = others.next() else {
            return false;
        };
        if !same_state(state, other) {
            return false;
        }
        if !same_weight(weight, other_weight) {
            return false;
        }
    }
    others.next().is_none()
}

/// Whether each weight is above 0.
pub fn above(table: &WideTable) -> bool
    ensures { result ≡ true → AreAbove table.now.states.entries }
{
    for (_, weight) in &table.states {
        if weight.num().is_zero() {
            return false;
        }
    }
    true
}

/// Whether each state of the second table stands in the first.
pub fn all_stand(closed: &Table, table: &WideTable) -> bool
    ensures { result ≡ true → AllInside closed.now.states.entries table.now.states.entries }
{
    for (state, _) in &table.states {
        if !stands(closed, state) {
            return false;
        }
    }
    true
}
