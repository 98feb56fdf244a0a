// Bounds by units, or where these are too coarse, by pairs.

ghost use Rattle.std.specs.Prelude.{◌≡◌, ◌≤◌, true, None, IfOk, IfErr, IfSome};
ghost use Rattle.gcl_core.specs.declared.rules.TheConstants.{MOST_LIMIT};
ghost use Rattle.gcl_core.specs.meaning.Views.{source_of};
ghost use Rattle.gcl_core.specs.weighing.Fractions.{AtMost};
ghost use Rattle.mass_fold.specs.Refused.{IsLimit};
ghost use Rattle.units_law.specs.FewOthers.{NearlyFails};
ghost use Rattle.enclose_fold.specs.declared.error.EncloseError.TheVariants.{OutOfMemory};
ghost use Rattle.enclose_fold.specs.inner.AsWritten.{AreAnswers, ArePaired, RefusedAsWritten};

use crate::enclosing::enclose_in_units;
use crate::error::EncloseError;
use bounds_law::Bounds;
use gcl_core::Checked;
use numbers::Frac;
use scaled_fold::{PairsError, enclose_in_pairs, enclose_under_attempts};
use std::alloc::Global;
use std::cmp::Ordering;

// The most turns at which bounds are worked out by pairs: of a loop whose turns are all observed each turn is made, since pairs become as small
// as what is left.
const MOST_TURNS: u64 = 1 << 16;

// Whether one fraction is less than another.
fn is_less(a: &Frac, b: &Frac) -> bool
    ensures { result ≡ true → AtMost a.now b.now }
{
    match a.compare(b) {
        Ordering::Less => true,
        Ordering::Equal | Ordering::Greater => false,
    }
}

// Whether there are bounds, and the others have at most 2^-80.
fn are_narrow(found: &Option<Bounds>) -> bool {
    match found {
        Some(bounds) => !is_less(&Frac::of(1, 1 << 80), &bounds.other),
        None => false,
    }
}

// Whether there are bounds, and the others have less by them than by those beside, if there are any.
fn have_less(found: &Option<Bounds>, beside: &Option<Bounds>) -> bool {
    match (found, beside) {
        (Some(bounds), Some(more)) => is_less(&bounds.other, &more.other),
        (Some(_), None) => true,
        (None, _) => false,
    }
}

// The bounds by pairs under a limit of attempts that weighs next to nothing, where there are any, from a round without that limit.
fn under_attempts(
    alloc: Global,
    p: &Checked,
    turns: u64,
    attempts: Option<u64>,
    all_turns: bool,
) -> Result<Option<Bounds>, EncloseError>
    ensures ok { IfOk result (λ found. IfSome found (λ b. ArePaired (source_of p.now) turns attempts all_turns b.rows b.other)) }
    ensures cause { IfErr result (λ e. e ≡ OutOfMemory) }
{
    match attempts {
        None => Ok(None),
        Some(most) => {
            if all_turns {
                return Ok(None);
            }
            match enclose_under_attempts(alloc, p, turns, most) {
                Ok(found) => Ok(found),
                Err(PairsError::OutOfMemory) => Err(EncloseError::OutOfMemory),
                Err(PairsError::TooManyStates | PairsError::TooWide | PairsError::NothingLeft) => {
                    Ok(None)
                }
            }
        }
    }
}

// The bounds by pairs under the limits of each draw and each loop, where there are any.
fn within_attempts(
    alloc: Global,
    p: &Checked,
    turns: u64,
    attempts: Option<u64>,
    all_turns: bool,
) -> Result<Option<Bounds>, EncloseError>
    ensures ok { IfOk result (λ found. IfSome found (λ b. ArePaired (source_of p.now) turns attempts all_turns b.rows b.other)) }
    ensures cause { IfErr result (λ e. e ≡ OutOfMemory) }
{
    match enclose_in_pairs(alloc, p, turns, attempts, all_turns) {
        Ok(bounds) => Ok(Some(bounds)),
        Err(PairsError::OutOfMemory) => Err(EncloseError::OutOfMemory),
        Err(PairsError::TooManyStates | PairsError::TooWide | PairsError::NothingLeft) => Ok(None),
    }
}

// The bounds by pairs, where there are any: from a round without the limit of attempts only where that with it is wide.
fn in_pairs(
    alloc: Global,
    p: &Checked,
    turns: u64,
    attempts: Option<u64>,
    all_turns: bool,
) -> Result<Option<Bounds>, EncloseError>
    ensures ok { IfOk result (λ found. IfSome found (λ b. ArePaired (source_of p.now) turns attempts all_turns b.rows b.other)) }
    ensures cause { IfErr result (λ e. e ≡ OutOfMemory) }
{
    let within = within_attempts(alloc, p, turns, attempts, all_turns)?;
    if are_narrow(&within) {
        return Ok(within);
    }
    let under = under_attempts(alloc, p, turns, attempts, all_turns)?;
    if have_less(&under, &within) {
        Ok(under)
    } else {
        Ok(within)
    }
}

// The bounds by pairs, where there are any and the others have less by them.
fn finer(
    alloc: Global,
    p: &Checked,
    turns: u64,
    attempts: Option<u64>,
    all_turns: bool,
    units: Bounds,
) -> Result<Bounds, EncloseError>
    requires { AreAnswers (source_of p.now) turns attempts None all_turns units.rows units.other }
    ensures ok { IfOk result (λ b. AreAnswers (source_of p.now) turns attempts None all_turns b.rows b.other) }
    ensures cause { IfErr result (λ e. e ≡ OutOfMemory) }
{
    match in_pairs(alloc, p, turns, attempts, all_turns)? {
        Some(pairs) => {
            if is_less(&pairs.other, &units.other) {
                Ok(pairs)
            } else {
                Ok(units)
            }
        }
        None => Ok(units),
    }
}

// The bounds by pairs, where no unit passes.
fn in_pairs_alone(
    alloc: Global,
    p: &Checked,
    turns: u64,
    attempts: Option<u64>,
    all_turns: bool,
) -> Result<Bounds, EncloseError>
    requires { NearlyFails (source_of p.now) turns attempts }
    ensures ok { IfOk result (λ b. AreAnswers (source_of p.now) turns attempts None all_turns b.rows b.other) }
    ensures refused { IfErr result (λ e. RefusedAsWritten e (source_of p.now) turns attempts None) }
{
    match in_pairs(alloc, p, turns, attempts, all_turns)? {
        Some(pairs) => Ok(pairs),
        None => Err(EncloseError::TooUnlikely),
    }
}

// The bounds of a program whose rounds have no limit.
fn enclose_without_rounds(
    alloc: Global,
    p: &Checked,
    turns: u64,
    attempts: Option<u64>,
    all_turns: bool,
) -> Result<Bounds, EncloseError>
    requires turns { turns ≤ MOST_LIMIT }
    requires attempts { IfSome attempts IsLimit }
    ensures ok { IfOk result (λ b. AreAnswers (source_of p.now) turns attempts None all_turns b.rows b.other) }
    ensures refused { IfErr result (λ e. RefusedAsWritten e (source_of p.now) turns attempts None) }
{
    match enclose_in_units(alloc, p, turns, attempts, None, all_turns) {
        Ok(units) => {
            if units.coarse {
                finer(alloc, p, turns, attempts, all_turns, units.bounds)
            } else {
                Ok(units.bounds)
            }
        }
        Err(EncloseError::TooUnlikely) => in_pairs_alone(alloc, p, turns, attempts, all_turns),
        Err(e) => Err(e),
    }
}

/// The bounds of a program itself, before anything is forgotten.
pub fn enclose_as_written(
    alloc: Global,
    p: &Checked,
    turns: u64,
    attempts: Option<u64>,
    rounds: Option<u64>,
    all_turns: bool,
) -> Result<Bounds, EncloseError>
    requires turns { turns ≤ MOST_LIMIT }
    requires attempts { IfSome attempts IsLimit }
    requires rounds { IfSome rounds IsLimit }
    ensures ok { IfOk result (λ b. AreAnswers (source_of p.now) turns attempts rounds all_turns b.rows b.other) }
    ensures refused { IfErr result (λ e. RefusedAsWritten e (source_of p.now) turns attempts rounds) }
{
    if rounds.is_none() && turns <= MOST_TURNS {
        return enclose_without_rounds(alloc, p, turns, attempts, all_turns);
    }
    let units = enclose_in_units(alloc, p, turns, attempts, rounds, all_turns)?;
    Ok(units.bounds)
}
