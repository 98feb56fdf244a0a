// The outcomes of a round, each with its units.

ghost use Rattle.std.specs.Prelude.{◌≡◌, ◌≤◌, ◌+◌, IfOk, OnOk, IfErr, if◌then◌else◌};
ghost use Rattle.numbers.specs.declared.units.TheConstants.{ALL};
ghost use Rattle.gcl_core.specs.meaning.Bounds.{ExpressionBelow};
ghost use Rattle.gcl_core.specs.meaning.Views.{expression_of};
ghost use Rattle.units_law.specs.Units.{total};
ghost use Rattle.enclose_fold.specs.declared.error.EncloseError.TheVariants.{OutOfMemory};
ghost use Rattle.enclose_fold.specs.inner.Ended.{units_of};
ghost use Rattle.enclose_fold.specs.inner.Outcomes.{found, Adds, AddsResults, AreOutcomes};

use crate::ended::Ended;
use crate::error::EncloseError;
use crate::steps::all_of;
use crate::table::Table;
use gcl_core::{Expr, Fault, Limit, Outcome, outcomes_are_ordered};
use mass_fold::outcome;
use std::alloc::Global;
use std::collections::BTreeMap;

// What the outcome has once w units are added.
fn sum_at(units: &BTreeMap<Outcome, u128>, x: &Outcome, w: u128) -> u128
    requires { total units.now.entries + w ≤ ALL }
    ensures { result ≡ found ⟦<Outcome as Ord>⟧.cmp units.now.entries x.now + w }
{
    match units.get(x) {
        Some(v) => *v + w,
        None => w,
    }
}

fn add(units: &mut BTreeMap<Outcome, u128>, x: Outcome, w: u128) -> Result<(), EncloseError>
    requires { total units.old.entries + w ≤ ALL }
    ensures ok { OnOk result (Adds units.old.entries x w units.new.entries) }
    ensures all { OnOk result (total units.new.entries ≡ total units.old.entries + w) }
    ensures cause { IfErr result (λ e. e ≡ OutOfMemory) }
{
    outcomes_are_ordered();
    let sum = sum_at(units, &x, w);
    units.insert(x, sum)?;
    Ok(())
}

// Adds the outcomes of the states that the body ends in.
fn add_results(
    e: &Expr,
    table: &Table,
    units: &mut BTreeMap<Outcome, u128>,
) -> Result<(), EncloseError>
    requires reads { ExpressionBelow (expression_of e.now) table.now.vars }
    requires within { total units.old.entries + total table.now.states.entries ≤ ALL }
    ensures ok { OnOk result (AddsResults (expression_of e.now) units.old.entries table.now.states.entries units.new.entries) }
    ensures all { OnOk result (total units.new.entries ≡ total units.old.entries + total table.now.states.entries) }
    ensures cause { IfErr result (λ e. e ≡ OutOfMemory) }
{
    for (s, w) in &table.states {
        add(units, outcome(e, s), *w)?;
    }
    Ok(())
}

// The units of the limit of turns that count.
fn turns_that_count(all_turns: bool, ended: &Ended) -> u128
    ensures { result ≡ (if all_turns then 0 else ended.now.turns) }
{
    if all_turns { 0 } else { ended.turns }
}

/// The outcomes of one round that count, each with its units: all, or where bounds are for all greater limits of turns, all but that
/// limit, which has none. The limit of rounds is among them, and has none yet.
pub fn outcome_units(
    alloc: Global,
    e: &Expr,
    all_turns: bool,
    table: &Table,
    ended: &Ended,
) -> Result<BTreeMap<Outcome, u128>, EncloseError>
    requires reads { ExpressionBelow (expression_of e.now) table.now.vars }
    requires within { total table.now.states.entries + total (units_of ended.now) ≤ ALL }
    ensures ok { IfOk result (λ units. AreOutcomes (expression_of e.now) all_turns table.now.states.entries ended.now units.entries) }
    ensures all { IfOk result (λ units. total units.entries + ended.now.failed ≤ ALL) }
    ensures cause { IfErr result (λ e. e ≡ OutOfMemory) }
{
    let turns = turns_that_count(all_turns, ended);
    let mut units = BTreeMap::new(alloc);
    add_results(e, table, &mut units)?;
    add(&mut units, Outcome::Fault(Fault::Overflow), ended.overflow)?;
    add(
        &mut units,
        Outcome::Fault(Fault::ZeroDivisor),
        ended.divisor,
    )?;
    add(&mut units, Outcome::Fault(Fault::BadBound), ended.bound)?;
    add(&mut units, Outcome::Limit(Limit::Turns), turns)?;
    add(&mut units, Outcome::Limit(Limit::Attempts), ended.attempts)?;
    add(&mut units, Outcome::Limit(Limit::Rounds), 0)?;
    Ok(units)
}

/// The units of one round that do not fail.
pub fn passing(table: &Table, ended: &Ended) -> u128
    requires { total table.now.states.entries + total (units_of ended.now) ≤ ALL }
    ensures { result + ended.now.failed ≡ total table.now.states.entries + total (units_of ended.now) }
{
    all_of(table) + ended.overflow + ended.divisor + ended.bound + ended.turns + ended.attempts
}

/// All units of some outcomes.
pub fn all_units(units: &BTreeMap<Outcome, u128>) -> u128
    requires { total units.now.entries ≤ ALL }
    ensures { result ≡ total units.now.entries }
{
    let mut sum = 0;
    for (_, w) in units {
        sum += *w;
    }
    sum
}
