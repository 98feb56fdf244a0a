// What one statement makes of a table.

ghost use Rattle.std.specs.Prelude.{◌≡◌, ◌≤◌, ◌<◌, ◌+◌, ◌++◌, [], length, IfOk, OnOk, IfErr};
ghost use Rattle.numbers.specs.declared.units.TheConstants.{ALL};
ghost use Rattle.gcl_core.specs.meaning.Views.{expression_of};
ghost use Rattle.gcl_core.specs.meaning.Value.{value_of};
ghost use Rattle.gcl_core.specs.meaning.Bounds.{ExpressionBelow};
ghost use Rattle.table_flow.specs.Tables.{holds, fails};
ghost use Rattle.units_law.specs.Merged.{merged, put};
ghost use Rattle.units_law.specs.Units.{total, set_units, only_units, fault_units};
ghost use Rattle.enclose_fold.specs.declared.error.EncloseError.TheVariants.{OutOfMemory};
ghost use Rattle.enclose_fold.specs.inner.Ended.{units_of, EndsWith};
ghost use Rattle.enclose_fold.specs.inner.Refusals.{RefusedAt};

use crate::ended::Ended;
use crate::error::EncloseError;
use crate::table::Table;
use gcl_core::{Expr, eval};
use mass_fold::State;
use std::alloc::Global;

/// One state by itself.
pub fn one_state(alloc: Global, vars: u32, s: State, w: u128) -> Result<Table, EncloseError>
    requires sized { length s ≡ vars }
    requires within { w ≤ ALL }
    ensures one { IfOk result (λ t. t.states.entries ≡ put [] s w) }
    ensures vars { IfOk result (λ t. t.vars ≡ vars) }
    ensures cause { IfErr result (λ e. e ≡ OutOfMemory) }
{
    let mut one = Table::new(alloc, vars);
    one.put(s, w)?;
    Ok(one)
}

/// An assignment.
pub fn assign(
    alloc: Global,
    x: u32,
    e: &Expr,
    table: Table,
    ended: &mut Ended,
) -> Result<Table, EncloseError>
    requires place { x < table.vars }
    requires reads { ExpressionBelow (expression_of e.now) table.vars }
    requires within { total table.states.entries + total (units_of ended.old) ≤ ALL }
    ensures next { IfOk result (λ t. t.states.entries ≡ merged (set_units x (value_of (expression_of e.now)) table.states.entries)) }
    ensures stopped { IfOk result (λ t. EndsWith ended.old (fault_units (value_of (expression_of e.now)) table.states.entries) ended.new) }
    ensures vars { IfOk result (λ t. t.vars ≡ table.vars) }
    ensures cause { IfErr result (λ e. e ≡ OutOfMemory) }
{
    let mut next = Table::new(alloc, table.vars);
    for (mut s, w) in table.states {
        match eval(e, s.values()) {
            Ok(v) => {
                s.set(x, v);
                next.put(s, w)?;
            }
            Err(fault) => ended.add_fault(fault, w),
        }
    }
    Ok(next)
}

/// The entries where the guard holds, and those where it does not.
pub fn split(
    alloc: Global,
    e: &Expr,
    table: Table,
    ended: &mut Ended,
) -> Result<(Table, Table), EncloseError>
    requires reads { ExpressionBelow (expression_of e.now) table.vars }
    requires within { total table.states.entries + total (units_of ended.old) ≤ ALL }
    ensures first { IfOk result (λ t. t.0.states.entries ≡ merged (only_units (holds (value_of (expression_of e.now))) table.states.entries)) }
    ensures second { IfOk result (λ t. t.1.states.entries ≡ merged (only_units (fails (value_of (expression_of e.now))) table.states.entries)) }
    ensures stopped { IfOk result (λ t. EndsWith ended.old (fault_units (value_of (expression_of e.now)) table.states.entries) ended.new) }
    ensures vars { IfOk result (λ t. (t.0.vars ≡ table.vars) × (t.1.vars ≡ table.vars)) }
    ensures cause { IfErr result (λ e. e ≡ OutOfMemory) }
{
    let mut first = Table::new(alloc, table.vars);
    let mut second = Table::new(alloc, table.vars);
    for (s, w) in table.states {
        match eval(e, s.values()) {
            Ok(v) => {
                if v == 0 {
                    second.put(s, w)?;
                } else {
                    first.put(s, w)?;
                }
            }
            Err(fault) => ended.add_fault(fault, w),
        }
    }
    Ok((first, second))
}

/// All units of a table.
pub fn all_of(table: &Table) -> u128
    requires { total table.now.states.entries ≤ ALL }
    ensures { result ≡ total table.now.states.entries }
{
    let mut sum = 0;
    for (_, w) in &table.states {
        sum += *w;
    }
    sum
}

/// All entries of one table come into another.
pub fn merge(into: &mut Table, table: Table) -> Result<(), EncloseError>
    requires vars { table.vars ≡ into.old.vars }
    requires within { total into.old.states.entries + total table.states.entries ≤ ALL }
    ensures ok { OnOk result (into.new.states.entries ≡ merged (into.old.states.entries ++ table.states.entries)) }
    ensures vars { into.new.vars ≡ into.old.vars }
    ensures cause { IfErr result (RefusedAt (into.old.states.entries ++ table.states.entries)) }
{
    for (s, w) in table.states {
        into.put(s, w)?;
    }
    Ok(())
}
