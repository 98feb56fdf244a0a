// The outcomes of a round, each with its units at least and at most.

ghost use Rattle.std.specs.Prelude.{◌≡◌, IfOk};
ghost use Rattle.gcl_core.specs.meaning.Bounds.{ExpressionBelow};
ghost use Rattle.gcl_core.specs.meaning.Views.{expression_of};
ghost use Rattle.scaled_fold.specs.inner.Outcomes.{Adds, AddsResults, AreOutcomes};

use crate::ended::Ended;
use crate::error::PairsError;
use crate::sums::sum_at;
use crate::table::Table;
use gcl_core::{Expr, Fault, Limit, Outcome, outcomes_are_ordered};
use mass_fold::outcome;
use std::alloc::Global;
use std::collections::BTreeMap;

fn add(
    before: BTreeMap<Outcome, (u128, u128)>,
    x: Outcome,
    w: (u128, u128),
) -> Result<BTreeMap<Outcome, (u128, u128)>, PairsError>
    ensures { IfOk result (λ units. Adds before.entries x w units.entries) }
{
    outcomes_are_ordered();
    let mut units = before;
    let sum = sum_at(&units, &x, w)?;
    units.insert(x, sum)?;
    Ok(units)
}

// With the outcomes of the states that the body ends in.
fn add_results(
    e: &Expr,
    table: &Table,
    before: BTreeMap<Outcome, (u128, u128)>,
) -> Result<BTreeMap<Outcome, (u128, u128)>, PairsError>
    requires { ExpressionBelow (expression_of e.now) table.now.vars }
    ensures { IfOk result (λ units. AddsResults (expression_of e.now) before.entries table.now.states.entries units.entries) }
{
    let mut units = before;
    for (s, w) in &table.states {
        units = add(units, outcome(e, s), *w)?;
    }
    Ok(units)
}

/// The outcomes of one round, each with its units.
pub fn outcomes_of(
    alloc: Global,
    e: &Expr,
    table: &Table,
    ended: Ended,
) -> Result<BTreeMap<Outcome, (u128, u128)>, PairsError>
    requires { ExpressionBelow (expression_of e.now) table.now.vars }
    ensures { IfOk result (λ units. AreOutcomes (expression_of e.now) table.now.states.entries ended units.entries) }
{
    let none = BTreeMap::new(alloc);
    let values = add_results(e, table, none)?;
    let overflows = add(values, Outcome::Fault(Fault::Overflow), ended.overflow)?;
    let divisors = add(overflows, Outcome::Fault(Fault::ZeroDivisor), ended.divisor)?;
    let bounds = add(divisors, Outcome::Fault(Fault::BadBound), ended.bound)?;
    let turns = add(bounds, Outcome::Limit(Limit::Turns), ended.turns)?;
    add(turns, Outcome::Limit(Limit::Attempts), ended.attempts)
}
