// A statement or a block from each state of a table alone, and what comes of each, by the weight of the state.

ghost use Rattle.std.specs.Prelude.{◌≡◌, IfOk, OnOk};
ghost use Rattle.gcl_core.specs.meaning.Bounds.{StatementIsWeighed, BlockIsWeighed, StatementBelow, BlockBelow};
ghost use Rattle.gcl_core.specs.meaning.Views.{statement_of, statements_of};
ghost use Rattle.unlimited_law.specs.Alike.{Alike};
ghost use Rattle.unlimited_law.specs.Settling.{StatementSettles, BlockSettles};
ghost use Rattle.exact_fold.specs.inner.Settled.{SettlesFrom};
ghost use Rattle.wide_fold.specs.inner.Adding.{AddsLed};

use crate::ended::WideEnded;
use crate::error::WideFoldError;
use crate::table::WideTable;
use crate::widened::{product, widened};
use crate::work::Work;
use exact_fold::settle::{settle_block, settle_stmt};
use exact_fold::turning::alone;
use gcl_core::{Block, Stmt};
use mass_fold::{Ended, Table};
use std::alloc::Global;
use wide_numbers::WideFraction;

// Adds a table, times a weight.
fn add_led(
    alloc: Global,
    times: &WideFraction,
    table: &Table,
    out: &mut WideTable,
    work: &mut Work,
) -> Result<(), WideFoldError>
    requires { table.now.vars ≡ out.old.vars }
    ensures ok { OnOk result (AddsLed times.now table.now.states.entries out.old.states.entries out.new.states.entries) }
    ensures vars { out.new.vars ≡ out.old.vars }
{
    work.work_with(table.states.len() as u64, times)?;
    for (state, weight) in &table.states {
        let part = widened(alloc, weight)?;
        let added = product(alloc, times, &part)?;
        out.put(alloc, state.copy(alloc)?, added)?;
    }
    Ok(())
}

/// The table after a statement, which is settled from each of its states alone; what ended is added.
pub fn from_each(
    alloc: Global,
    statement: &Stmt,
    table: &WideTable,
    ended: &mut WideEnded,
    work: &mut Work,
) -> Result<WideTable, WideFoldError>
    requires below { StatementBelow table.now.vars (statement_of statement.now) }
    requires weights { StatementIsWeighed (statement_of statement.now) }
    ensures ok { IfOk result (λ t. SettlesFrom (StatementSettles Alike Alike (statement_of statement.now))
        table.now.states.entries ended.old t.states.entries ended.new) }
    ensures vars { IfOk result (λ t. t.vars ≡ table.now.vars) }
{
    let mut out = WideTable::new(alloc, table.vars);
    for (state, weight) in &table.states {
        let one = alone(alloc, table.vars, state)?;
        let mut gone = Ended::none();
        let next = settle_stmt(alloc, statement, one, &mut gone, &mut work.parts)?;
        add_led(alloc, weight, &next, &mut out, work)?;
        ended.add_times(alloc, weight, &gone)?;
    }
    Ok(out)
}

/// The table after a block, which is settled from each of its states alone; what ended is added.
pub fn block_from_each(
    alloc: Global,
    block: &Block,
    table: WideTable,
    ended: &mut WideEnded,
    work: &mut Work,
) -> Result<WideTable, WideFoldError>
    requires below { BlockBelow table.vars (statements_of block.now) }
    requires weights { BlockIsWeighed (statements_of block.now) }
    ensures ok { IfOk result (λ t. SettlesFrom (BlockSettles Alike Alike (statements_of block.now))
        table.states.entries ended.old t.states.entries ended.new) }
    ensures vars { IfOk result (λ t. t.vars ≡ table.vars) }
{
    let mut out = WideTable::new(alloc, table.vars);
    for (state, weight) in &table.states {
        let one = alone(alloc, table.vars, state)?;
        let mut gone = Ended::none();
        let next = settle_block(alloc, block, one, &mut gone, &mut work.parts)?;
        add_led(alloc, weight, &next, &mut out, work)?;
        ended.add_times(alloc, weight, &gone)?;
    }
    Ok(out)
}
