// The expected number of rounds of a program where nothing is limited.

ghost use Rattle.std.specs.Prelude.{◌≤◌, None, IfOk, IfErr};
ghost use Rattle.gcl_core.specs.declared.rules.TheConstants.{MOST_LIMIT};
ghost use Rattle.gcl_core.specs.meaning.Views.{source_of};
ghost use Rattle.exact_fold.specs.Exact.{FailsWith};
ghost use Rattle.exact_fold.specs.Refused.{HasNoLoop, HasLoops};
ghost use Rattle.table_flow.specs.Tables.{tables_of};
ghost use Rattle.unlimited_law.specs.Ended.{TurnsSuffice};
ghost use Rattle.bits_law.specs.Rounds.{expected_rounds};
ghost use Rattle.bits_fold.specs.Expected.{IsCount};
ghost use Rattle.bits_fold.specs.Refused.{BitsRefused, ReadsBeyond};
ghost use Rattle.bits_fold.specs.inner.AsWritten.{RefusedAsWritten, RefusedAt};

use crate::counts::Count;
use crate::ended::all_end;
use crate::error::BitsError;
use bits_law::rounds_tend_to_their_limit;
use exact_fold::{SettleError, TURNS_TRIED, block_loops, failed_in_the_limit};
use forgetting::{forgetful, forgetting_changes_no_meaning};
use gcl_core::Checked;
use mass_fold::round_bits;
use numbers::Frac;
use std::alloc::Global;

// The weight with which a round fails, of a program in which every run has ended by so many turns.
fn failed_at(alloc: Global, p: &Checked, turns: u64) -> Result<Frac, BitsError>
    requires turns { turns ≤ MOST_LIMIT }
    requires ended { TurnsSuffice (tables_of (source_of p.now) turns None).ended }
    ensures fails { IfOk result (FailsWith (source_of p.now)) }
    ensures refused { IfErr result (RefusedAt (source_of p.now) turns) }
{
    p.is_kept();
    let (_read, failed) = round_bits(alloc, p, turns, None)?;
    Ok(failed)
}

// That of a program without a loop: at one turn.
fn failed_at_once(alloc: Global, p: &Checked) -> Result<Frac, BitsError>
    requires { HasNoLoop (source_of p.now) }
    ensures fails { IfOk result (FailsWith (source_of p.now)) }
    ensures refused { IfErr result (RefusedAsWritten (source_of p.now)) }
{
    failed_at(alloc, p, 1)
}

// That of a program whose loops are not settled: at a limit of turns, where every run has ended by then.
fn failed_where_all_end(alloc: Global, p: &Checked, refusal: BitsError) -> Result<Frac, BitsError>
    requires { ReadsBeyond (source_of p.now) → RefusedAsWritten (source_of p.now) refusal }
    ensures fails { IfOk result (FailsWith (source_of p.now)) }
    ensures refused { IfErr result (RefusedAsWritten (source_of p.now)) }
{
    all_end(alloc, p, refusal)?;
    match failed_at(alloc, p, TURNS_TRIED) {
        Ok(failed) => Ok(failed),
        Err(BitsError::OutOfMemory) => Err(BitsError::OutOfMemory),
        Err(BitsError::TooWide) => Err(refusal),
        Err(BitsError::TooManyStates) => Err(refusal),
        Err(BitsError::NotFound) => Err(refusal),
    }
}

// That of a program with a loop.
fn failed_in_loops(alloc: Global, p: &Checked) -> Result<Frac, BitsError>
    requires { HasLoops (source_of p.now) }
    ensures fails { IfOk result (FailsWith (source_of p.now)) }
    ensures refused { IfErr result (RefusedAsWritten (source_of p.now)) }
{
    match failed_in_the_limit(alloc, p) {
        Ok(failed) => Ok(failed),
        Err(SettleError::OutOfMemory) => Err(BitsError::OutOfMemory),
        Err(SettleError::TooWide) => failed_where_all_end(alloc, p, BitsError::TooWide),
        Err(SettleError::TooManyStates) => failed_where_all_end(alloc, p, BitsError::TooManyStates),
        Err(SettleError::NotSettled) => failed_where_all_end(alloc, p, BitsError::NotFound),
    }
}

/// That of any program itself, before anything is forgotten.
pub fn failed_as_written(alloc: Global, p: &Checked) -> Result<Frac, BitsError>
    ensures fails { IfOk result (FailsWith (source_of p.now)) }
    ensures refused { IfErr result (RefusedAsWritten (source_of p.now)) }
{
    if block_loops(&p.program().body) {
        failed_in_loops(alloc, p)
    } else {
        failed_at_once(alloc, p)
    }
}

// One over what does not fail.
fn over_passes(p: &Checked, failed: &Frac) -> Count
    requires { FailsWith (source_of p.now) failed.now }
    ensures { IsCount (expected_rounds (source_of p.now)) result }
{
    p.is_kept();
    rounds_tend_to_their_limit();
    failed.is_lowest();
    if failed.num() >= failed.den() {
        return Count::Unbounded;
    }
    Count::Expected(Frac::of(failed.den(), failed.den() - failed.num()))
}

// The rounds of the program itself.
fn rounds_as_written(alloc: Global, p: &Checked) -> Result<Count, BitsError>
    ensures answer { IfOk result (IsCount (expected_rounds (source_of p.now))) }
    ensures refused { IfErr result (RefusedAsWritten (source_of p.now)) }
{
    let failed = failed_as_written(alloc, p)?;
    Ok(over_passes(p, &failed))
}

/// How many rounds a run of a program begins on average where neither turns nor attempts nor rounds are limited: one, and one more
/// after each that fails.
///
/// The fraction is in lowest terms: under whatever limits no more rounds are expected, and for each k, where all limits are great
/// enough, no fewer but for 1 / k. There is no bound where in the limit every round fails. It is worked out of the forgetful program,
/// whose rounds fail as often.
///
/// It is refused only for a cause for which [`crate::cost_in_the_limit`] is.
pub fn rounds_in_the_limit(alloc: Global, p: &Checked) -> Result<Count, BitsError>
    ensures answer { IfOk result (IsCount (expected_rounds (source_of p.now))) }
    ensures refused { IfErr result (BitsRefused (source_of p.now)) }
{
    forgetting_changes_no_meaning();
    let q = forgetful(alloc, p)?;
    rounds_as_written(alloc, &q)
}
