// Bounds of the masses of a program.

ghost use Rattle.std.specs.Prelude.{◌≡◌, ◌≤◌, ◌<◌, ◌+◌, ℕ, IfOk, IfErr, IfSome, IfNone};
ghost use Rattle.numbers.specs.declared.units.TheConstants.{ALL};
ghost use Rattle.gcl_core.specs.declared.rules.TheConstants.{MOST_LIMIT};
ghost use Rattle.gcl_core.specs.meaning.Views.{source_of};
ghost use Rattle.gcl_core.specs.weighing.Fractions.{IsBelowOne};
ghost use Rattle.gcl_core.specs.weighing.Mass.{failed_mass};
ghost use Rattle.mass_fold.specs.Refused.{IsLimit};
ghost use Rattle.table_flow.specs.Tables.{peak_of};
ghost use Rattle.units_law.specs.Enclosures.{AreEnclosures, SomePasses, upper_of_others};
ghost use Rattle.units_law.specs.FewOthers.{HaveLittle};
ghost use Rattle.units_law.specs.Holding.{IsFor, MayEnd, AreOrdered, Enclose, AreClose, most_apart};
ghost use Rattle.enclose_fold.specs.declared.error.EncloseError.TheVariants.{AllFailed, TooUnlikely};
ghost use Rattle.enclose_fold.specs.inner.NonePass.{NonePass};
ghost use Rattle.enclose_fold.specs.inner.AsWritten.{RefusedAsWritten};
ghost use Rattle.enclose_fold.specs.inner.Outcomes.{RoundGives};
ghost use Rattle.enclose_fold.specs.inner.Refusals.{Refuses};

use crate::body::fold_body;
use crate::bounding::Round;
use crate::error::EncloseError;
use crate::outcomes::{all_units, outcome_units, passing};
use crate::rows::bound_rows;
use bounds_law::Bounds;
use gcl_core::{Checked, Outcome, outcomes_are_ordered};
use mass_fold::is_ordered;
use numbers::ALL;
use std::alloc::Global;
use std::collections::BTreeMap;
use units_law::{
    bounds_are_as_wide_as_what_is_lost, masses_lie_between, others_have_little,
    products_are_rounded_down, units_are_lost_by_rounding,
};

// What one round gives: the units of each outcome that counts, of a failed observation, and of all that does not fail.
#[derive(Drop)]
struct Given {
    units: BTreeMap<Outcome, u128>,
    failed: u128,
    passing: u128,
}

// One round of a program.
fn one_round(
    alloc: Global,
    p: &Checked,
    turns: u64,
    attempts: Option<u64>,
    all_turns: bool,
) -> Result<Given, EncloseError>
    ensures ok { IfOk result (λ g. RoundGives (source_of p.now) turns attempts all_turns g.units.entries g.failed g.passing) }
    ensures cause { IfErr result (λ e. Refuses e (peak_of (source_of p.now) turns attempts)) }
{
    p.is_kept();
    products_are_rounded_down();
    units_are_lost_by_rounding();
    outcomes_are_ordered();
    let program = p.program();
    let (table, ended) = fold_body(alloc, p, turns, attempts)?;
    let passing = passing(&table, &ended);
    let units = outcome_units(alloc, &program.result, all_turns, &table, &ended)?;
    is_ordered(&units);
    Ok(Given {
        units,
        failed: ended.failed,
        passing,
    })
}

// Why there are no bounds where no unit of a round passes, of which so many fail.
fn none_passes(failed: u128) -> EncloseError
    ensures all { failed ≡ ALL → result ≡ AllFailed }
    ensures some { failed < ALL → result ≡ TooUnlikely }
{
    if failed < ALL {
        EncloseError::TooUnlikely
    } else {
        EncloseError::AllFailed
    }
}

// Whether roundings may be more than about 2^-80 of what passes.
fn is_coarse(failed: u128, passing: u128) -> bool
    requires { failed + passing ≤ ALL }
{
    ALL - failed - passing > passing >> 80
}

/// Bounds by units, and whether units are coarse beside what passes.
#[derive(Drop)]
pub struct Counted {
    pub bounds: Bounds,
    pub coarse: bool,
}

/// The bounds of a program itself, before anything is forgotten, by units.
pub fn enclose_in_units(
    alloc: Global,
    p: &Checked,
    turns: u64,
    attempts: Option<u64>,
    rounds: Option<u64>,
    all_turns: bool,
) -> Result<Counted, EncloseError>
    requires turns { turns ≤ MOST_LIMIT }
    requires attempts { IfSome attempts IsLimit }
    requires rounds { IfSome rounds IsLimit }
    ensures rows { IfOk result (λ b. AreEnclosures (source_of p.now) turns attempts rounds all_turns b.bounds.rows) }
    ensures other { IfOk result (λ b. b.bounds.other ≡ upper_of_others (source_of p.now) turns attempts rounds all_turns) }
    ensures ordered { IfOk result (λ b. AreOrdered b.bounds.rows b.bounds.other) }
    ensures some { IfOk result (λ b. IfNone rounds (SomePasses (source_of p.now) turns attempts)) }
    ensures passes { IfOk result (λ b. IfNone rounds (IsBelowOne (failed_mass (source_of p.now) turns attempts))) }
    ensures enclose { IfOk result
        (λ b. (n : ℕ) → IsFor all_turns turns n → MayEnd (source_of p.now) n attempts rounds → Enclose (source_of p.now) n attempts rounds b.bounds.rows b.bounds.other) }
    ensures close { IfOk result (λ b. AreClose (most_apart rounds) b.bounds.rows b.bounds.other) }
    ensures few { IfOk result (λ b. HaveLittle (source_of p.now) turns attempts rounds all_turns b.bounds.other) }
    ensures refused { IfErr result (λ e. RefusedAsWritten e (source_of p.now) turns attempts rounds) }
    ensures units { IfErr result (λ e. NonePass e (source_of p.now) turns attempts) }
{
    p.is_kept();
    masses_lie_between();
    bounds_are_as_wide_as_what_is_lost();
    others_have_little();
    let given = one_round(alloc, p, turns, attempts, all_turns)?;
    if rounds.is_none() && given.passing == 0 {
        return Err(none_passes(given.failed));
    }
    let round = Round {
        rounds,
        failed: given.failed,
        all: all_units(&given.units),
    };
    let coarse = is_coarse(given.failed, given.passing);
    Ok(Counted {
        bounds: Bounds {
            rows: bound_rows(alloc, round, given.units)?,
            other: round.upper_of_rest(),
        },
        coarse,
    })
}
