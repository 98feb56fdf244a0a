// The sides of a choice, in wide fractions.

ghost use Rattle.std.specs.Prelude.{◌≡◌, ◌≤◌, None, IfOk};
ghost use Rattle.gcl_core.specs.meaning.Bounds.{IsWeight};
ghost use Rattle.numbers.specs.Fraction.{lowest};
ghost use Rattle.table_flow.specs.Counts.{all_kept, none_stopped};
ghost use Rattle.mass_fold.specs.declared.ended.Ended.{Ended};
ghost use Rattle.mass_fold.specs.inner.Fold.{WeighedBy, SidesTo};
ghost use Rattle.mass_fold.specs.inner.Steps.{DrawsTo};

use crate::error::WideFoldError;
use crate::table::WideTable;
use crate::widened::product;
use crate::work::Work;
use gcl_core::Weight;
use mass_fold::is_ordered;
use std::alloc::Global;
use wide_numbers::{Wide, WideFraction};

// The table with each weight multiplied.
fn scale(
    alloc: Global,
    times: &WideFraction,
    table: &WideTable,
    work: &mut Work,
) -> Result<WideTable, WideFoldError>
    requires { 1 ≤ times.now.0 }
    ensures ok { IfOk result (λ t. (E : Ended) → DrawsTo (λ s. times.now) (λ s. times.now) all_kept none_stopped
        table.now.states.entries E t.states.entries E) }
    ensures vars { IfOk result (λ t. t.vars ≡ table.now.vars) }
{
    let _den = times.den();
    let mut next = WideTable::new(alloc, table.vars);
    for (state, weight) in &table.states {
        work.work_with(1, weight)?;
        let part = product(alloc, weight, times)?;
        next.put(alloc, state.copy(alloc)?, part)?;
    }
    Ok(next)
}

// So many parts, as a fraction.
fn parts(alloc: Global, count: u64, all: u64) -> Result<WideFraction, WideFoldError>
    requires { 1 ≤ all }
    ensures { IfOk result (λ f. f ≡ lowest (count, all)) }
{
    let num = Wide::of(alloc, count)?;
    let den = Wide::of(alloc, all)?;
    Ok(WideFraction::of(alloc, &num, &den)?)
}

/// The table with each weight times so many of all parts of a draw; no entry where there are none.
pub fn side(
    alloc: Global,
    count: u64,
    all: u64,
    table: &WideTable,
    work: &mut Work,
) -> Result<WideTable, WideFoldError>
    requires { 1 ≤ all }
    ensures ok { IfOk result (λ t. WeighedBy (1, all) count table.now.states.entries t.states.entries) }
    ensures vars { IfOk result (λ t. t.vars ≡ table.now.vars) }
{
    is_ordered(&table.states);
    if count == 0 {
        return Ok(WideTable::new(alloc, table.vars));
    }
    let times = parts(alloc, count, all)?;
    let _den = times.den();
    scale(alloc, &times, table, work)
}

/// The table of the first side of a choice and that of the second, each state with its weight times that of the side.
pub fn sides(
    alloc: Global,
    p: Weight,
    table: &WideTable,
    work: &mut Work,
) -> Result<(WideTable, WideTable), WideFoldError>
    requires { IsWeight p }
    ensures ok { IfOk result (λ t. (E : Ended) →
        SidesTo p None table.now.states.entries E t.0.states.entries t.1.states.entries E) }
    ensures vars { IfOk result (λ t. (t.0.vars ≡ table.now.vars) × (t.1.vars ≡ table.now.vars)) }
{
    let first = side(alloc, p.num, p.den, table, work)?;
    let second = side(alloc, p.den - p.num, p.den, table, work)?;
    Ok((first, second))
}
