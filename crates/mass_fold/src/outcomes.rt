// The outcomes of a round, each with its weight.

ghost use Rattle.std.specs.Prelude.{◌≡◌, length, IfOk, OnOk, IfErr};
ghost use Rattle.gcl_core.specs.meaning.Outcomes.{outcome_of};
ghost use Rattle.gcl_core.specs.meaning.Value.{value_of};
ghost use Rattle.gcl_core.specs.meaning.Bounds.{ExpressionBelow};
ghost use Rattle.gcl_core.specs.meaning.Views.{expression_of};
ghost use Rattle.mass_fold.specs.inner.Amounts.{SumAt};
ghost use Rattle.mass_fold.specs.inner.Outcomes.{AddGives, AddBlames, ResultsGive, ResultsBlame, EndedGive, EndedBlame};

use crate::ended::Ended;
use crate::error::MassError;
use crate::state::State;
use crate::table::Table;
use gcl_core::{Expr, Fault, Limit, Outcome, eval, outcomes_are_ordered};
use numbers::Frac;
use std::collections::BTreeMap;

/// What a state of the body ends the run in: the value of the program's result, or its fault.
pub fn outcome(e: &Expr, s: &State) -> Outcome
    requires { ExpressionBelow (expression_of e.now) (length s.now) }
    ensures { result ≡ outcome_of (value_of (expression_of e.now) s.now) }
{
    match eval(e, s.values()) {
        Ok(v) => Outcome::Value(v),
        Err(fault) => Outcome::Fault(fault),
    }
}

// What the outcome weighs once f is added.
fn outcome_sum(rows: &BTreeMap<Outcome, Frac>, x: &Outcome, f: &Frac) -> Result<Frac, MassError>
    ensures ok { IfOk result (λ v. SumAt ⟦<Outcome as Ord>⟧.cmp rows.now.entries x.now f.now v) }
    ensures cause { IfErr result (λ e. AddBlames e rows.now.entries f.now) }
{
    f.is_lowest();
    match rows.get(x) {
        Some(g) => {
            g.is_lowest();
            g.add(f).ok_or(MassError::TooWide)
        }
        None => Ok(*f),
    }
}

/// Adds the weight of an outcome, where it is above 0. An error comes where a weight needs more than 128 bits, or memory runs
/// out.
pub fn add(rows: &mut BTreeMap<Outcome, Frac>, x: Outcome, f: &Frac) -> Result<(), MassError>
    ensures ok { OnOk result (AddGives rows.old.entries rows.new.entries x f.now) }
    ensures cause { IfErr result (λ e. AddBlames e rows.old.entries f.now) }
{
    outcomes_are_ordered();
    if f.num() == 0 {
        return Ok(());
    }
    let sum = outcome_sum(rows, &x, f)?;
    rows.insert(x, sum)?;
    Ok(())
}

/// Adds the outcomes of the states that the body ends in, each with the weight of its state. An error comes where a weight
/// needs more than 128 bits, or memory runs out.
pub fn add_results(
    e: &Expr,
    table: &Table,
    rows: &mut BTreeMap<Outcome, Frac>,
) -> Result<(), MassError>
    requires { ExpressionBelow (expression_of e.now) table.now.vars }
    ensures ok { OnOk result (ResultsGive (expression_of e.now) table.now.states.entries rows.old.entries rows.new.entries) }
    ensures cause { IfErr result (λ error. ResultsBlame error table.now.states.entries rows.old.entries) }
{
    for (s, f) in &table.states {
        add(rows, outcome(e, s), f)?;
    }
    Ok(())
}

/// Adds the faults and the limits that the body ends in, each with its weight. An error comes where a weight needs more than
/// 128 bits, or memory runs out.
pub fn add_ended(ended: &Ended, rows: &mut BTreeMap<Outcome, Frac>) -> Result<(), MassError>
    ensures ok { OnOk result (EndedGive ended.now rows.old.entries rows.new.entries) }
    ensures cause { IfErr result (λ error. EndedBlame error ended.now rows.old.entries) }
{
    add(rows, Outcome::Fault(Fault::Overflow), &ended.overflow)?;
    add(rows, Outcome::Fault(Fault::ZeroDivisor), &ended.divisor)?;
    add(rows, Outcome::Fault(Fault::BadBound), &ended.bound)?;
    add(rows, Outcome::Limit(Limit::Turns), &ended.turns)?;
    add(rows, Outcome::Limit(Limit::Attempts), &ended.attempts)
}
