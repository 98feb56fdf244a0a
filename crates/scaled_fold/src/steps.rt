// What one statement makes of a table.

ghost use Rattle.std.specs.Prelude.{◌≡◌, ◌<◌, IfOk};
ghost use Rattle.gcl_core.specs.meaning.Views.{expression_of};
ghost use Rattle.gcl_core.specs.meaning.Value.{value_of};
ghost use Rattle.gcl_core.specs.meaning.Bounds.{ExpressionBelow};
ghost use Rattle.table_flow.specs.Tables.{holds, fails, set_go, only_go, faults_go};
ghost use Rattle.scaled_law.specs.Pairs.{counted_pairs, merged_pairs};
ghost use Rattle.scaled_fold.specs.inner.Ended.{EndsWith};

use crate::ended::Ended;
use crate::error::PairsError;
use crate::table::Table;
use gcl_core::{Expr, eval};
use std::alloc::Global;

/// An assignment, with what has ended.
pub fn assign(
    alloc: Global,
    x: u32,
    e: &Expr,
    table: Table,
    before: Ended,
) -> Result<(Table, Ended), PairsError>
    requires place { x < table.vars }
    requires reads { ExpressionBelow (expression_of e.now) table.vars }
    ensures next { IfOk result (λ t. t.0.states.entries ≡ merged_pairs (set_go counted_pairs x (value_of (expression_of e.now)) table.states.entries)) }
    ensures stopped { IfOk result (λ t. EndsWith before (faults_go counted_pairs (value_of (expression_of e.now)) table.states.entries) t.1) }
    ensures vars { IfOk result (λ t. t.0.vars ≡ table.vars) }
{
    let mut next = Table::new(alloc, table.vars);
    let mut ended = before;
    for (mut s, w) in table.states {
        match eval(e, s.values()) {
            Ok(v) => {
                s.set(x, v);
                next = next.put(s, w)?;
            }
            Err(fault) => ended = ended.with_fault(fault, w)?,
        }
    }
    Ok((next, ended))
}

/// The entries where the guard holds, those where it does not, and what has ended.
pub fn split(
    alloc: Global,
    e: &Expr,
    table: Table,
    before: Ended,
) -> Result<(Table, Table, Ended), PairsError>
    requires reads { ExpressionBelow (expression_of e.now) table.vars }
    ensures first { IfOk result (λ t. t.0.states.entries ≡ merged_pairs (only_go counted_pairs (holds (value_of (expression_of e.now))) table.states.entries)) }
    ensures second { IfOk result (λ t. t.1.states.entries ≡ merged_pairs (only_go counted_pairs (fails (value_of (expression_of e.now))) table.states.entries)) }
    ensures stopped { IfOk result (λ t. EndsWith before (faults_go counted_pairs (value_of (expression_of e.now)) table.states.entries) t.2) }
    ensures vars { IfOk result (λ t. (t.0.vars ≡ table.vars) × (t.1.vars ≡ table.vars)) }
{
    let mut first = Table::new(alloc, table.vars);
    let mut second = Table::new(alloc, table.vars);
    let mut ended = before;
    for (s, w) in table.states {
        match eval(e, s.values()) {
            Ok(v) => {
                if v == 0 {
                    second = second.put(s, w)?;
                } else {
                    first = first.put(s, w)?;
                }
            }
            Err(fault) => ended = ended.with_fault(fault, w)?,
        }
    }
    Ok((first, second, ended))
}
