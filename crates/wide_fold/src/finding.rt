// Where a loop is entered, and where its turns lead, in 128 bits. Nothing is promised of it: visits are checked by one turn of the loop.

ghost use Rattle.std.specs.Prelude.{◌≡◌, IfOk};
ghost use Rattle.gcl_core.specs.meaning.Bounds.{BlockIsWeighed, BlockBelow, ExpressionBelow};
ghost use Rattle.gcl_core.specs.meaning.Views.{expression_of, statements_of};

use crate::error::WideFoldError;
use crate::table::WideTable;
use exact_fold::finding::put;
use exact_fold::parts::Parts;
use exact_fold::settle::settle_block;
use gcl_core::{Block, Expr};
use mass_fold::{Ended, State, Table, split};
use numbers::Frac;
use std::alloc::Global;

// The states of a table, each with the weight 1.
fn ones(alloc: Global, table: &WideTable) -> Result<Table, WideFoldError>
    ensures { IfOk result (λ t. t.vars ≡ table.now.vars) }
{
    let mut ones = Table::new(alloc, table.vars);
    for (state, _) in &table.states {
        put(&mut ones, state.copy(alloc)?, Frac::of(1, 1))?;
    }
    if ones.vars != table.vars {
        return Err(WideFoldError::NotSettled);
    }
    Ok(ones)
}

/// The states of a table at which a guard holds.
pub fn entered(alloc: Global, guard: &Expr, table: &WideTable) -> Result<Table, WideFoldError>
    requires { ExpressionBelow (expression_of guard.now) table.now.vars }
{
    let all = ones(alloc, table)?;
    let (holds, _) = split(alloc, guard, all, &mut Ended::none())?;
    Ok(holds)
}

/// Where one turn leads from a state, as far as the guard holds there again.
pub fn led(
    alloc: Global,
    body: &Block,
    guard: &Expr,
    vars: u32,
    state: &State,
    made: &mut Parts,
) -> Result<Table, WideFoldError>
    requires reads { ExpressionBelow (expression_of guard.now) vars }
    requires below { BlockBelow vars (statements_of body.now) }
    requires weights { BlockIsWeighed (statements_of body.now) }
{
    let mut one = Table::new(alloc, vars);
    put(&mut one, state.copy(alloc)?, Frac::of(1, 1))?;
    let mut none = Ended::none();
    let next = settle_block(alloc, body, one, &mut none, made)?;
    let (first, _) = split(alloc, guard, next, &mut none)?;
    Ok(first)
}
