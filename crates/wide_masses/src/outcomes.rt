// The outcomes of a round, each with its weight, in wide fractions.

ghost use Rattle.std.specs.Prelude.{◌≡◌, length, IfOk, OnOk};
ghost use Rattle.gcl_core.specs.meaning.Bounds.{ExpressionBelow};
ghost use Rattle.gcl_core.specs.meaning.Views.{expression_of};
ghost use Rattle.mass_fold.specs.inner.Outcomes.{AddGives, ResultsGive, EndedGive};
ghost use Rattle.wide_fold.specs.inner.Adding.{SumsAt};

use gcl_core::{Expr, Fault, Limit, Outcome, outcomes_are_ordered};
use mass_fold::outcome;
use std::alloc::Global;
use std::collections::BTreeMap;
use wide_fold::{WideEnded, WideFoldError, WideTable};
use wide_numbers::WideFraction;

// The fraction once more.
fn copied(alloc: Global, fraction: &WideFraction) -> Result<WideFraction, WideFoldError>
    ensures { IfOk result (λ v. v ≡ fraction.now) }
{
    Ok(WideFraction::of(alloc, fraction.num(), fraction.den())?)
}

// What the outcome weighs once f is added.
fn outcome_sum(
    alloc: Global,
    rows: &BTreeMap<Outcome, WideFraction>,
    x: &Outcome,
    f: &WideFraction,
) -> Result<WideFraction, WideFoldError>
    ensures { IfOk result (λ v. SumsAt ⟦<Outcome as Ord>⟧.cmp rows.now.entries x.now f.now v) }
{
    match rows.get(x) {
        Some(g) => Ok(g.add(alloc, f)?),
        None => copied(alloc, f),
    }
}

/// Adds the weight of an outcome, where it is above 0.
pub fn add(
    alloc: Global,
    rows: &mut BTreeMap<Outcome, WideFraction>,
    x: Outcome,
    f: &WideFraction,
) -> Result<(), WideFoldError>
    ensures { OnOk result (AddGives rows.old.entries rows.new.entries x f.now) }
{
    outcomes_are_ordered();
    if f.num().is_zero() {
        return Ok(());
    }
    let sum = outcome_sum(alloc, rows, &x, f)?;
    rows.insert(x, sum)?;
    Ok(())
}

/// Adds the outcomes of the states that the body ends in, each with the weight of its state.
pub fn add_results(
    alloc: Global,
    e: &Expr,
    table: &WideTable,
    rows: &mut BTreeMap<Outcome, WideFraction>,
) -> Result<(), WideFoldError>
    requires { ExpressionBelow (expression_of e.now) table.now.vars }
    ensures { OnOk result (ResultsGive (expression_of e.now) table.now.states.entries rows.old.entries rows.new.entries) }
{
    for (s, f) in &table.states {
        add(alloc, rows, outcome(e, s), f)?;
    }
    Ok(())
}

/// Adds the faults and the limits that the body ends in, each with its weight.
pub fn add_ended(
    alloc: Global,
    ended: &WideEnded,
    rows: &mut BTreeMap<Outcome, WideFraction>,
) -> Result<(), WideFoldError>
    ensures { OnOk result (EndedGive ended.now rows.old.entries rows.new.entries) }
{
    add(
        alloc,
        rows,
        Outcome::Fault(Fault::Overflow),
        &ended.overflow,
    )?;
    add(
        alloc,
        rows,
        Outcome::Fault(Fault::ZeroDivisor),
        &ended.divisor,
    )?;
    add(alloc, rows, Outcome::Fault(Fault::BadBound), &ended.bound)?;
    add(alloc, rows, Outcome::Limit(Limit::Turns), &ended.turns)?;
    add(
        alloc,
        rows,
        Outcome::Limit(Limit::Attempts),
        &ended.attempts,
    )
}
