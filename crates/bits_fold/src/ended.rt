// The expected bits of a program whose runs have all ended by a number of turns.

ghost use Rattle.std.specs.Prelude.{◌≡◌, ◌<◌, ◌≤◌, true, false, None, IfOk, IfErr, OnOk};
ghost use Rattle.gcl_core.specs.declared.answers.Limit.TheVariants.{Turns};
ghost use Rattle.gcl_core.specs.declared.answers.Outcome.TheVariants as outcome;
ghost use Rattle.gcl_core.specs.declared.rules.TheConstants.{MOST_LIMIT};
ghost use Rattle.gcl_core.specs.meaning.Views.{source_of};
ghost use Rattle.gcl_core.specs.weighing.Mass.{mass_of};
ghost use Rattle.table_flow.specs.Tables.{tables_of};
ghost use Rattle.mass_fold.specs.Refused.{RoundRefused};
ghost use Rattle.unlimited_law.specs.Ended.{TurnsSuffice};
ghost use Rattle.exact_fold.specs.declared.program.TheConstants.{TURNS_TRIED};
ghost use Rattle.cost_law.specs.ExpectedBits.{expected_bits};
ghost use Rattle.bits_fold.specs.Expected.{IsCount};
ghost use Rattle.bits_fold.specs.Refused.{ReadsBeyond};
ghost use Rattle.bits_fold.specs.inner.AsWritten.{RefusedAsWritten, RefusedAt};

use crate::counted::Counted;
use crate::counts::{Count, count_over_rounds};
use crate::error::BitsError;
use exact_fold::{TURNS_TRIED, weight_of};
use gcl_core::{Checked, Limit, Outcome};
use mass_fold::{MassError, round, round_bits};
use std::alloc::Global;

/// The bits of a program in which every run has ended by so many turns: what its body reads there.
pub fn bits_at(alloc: Global, p: &Checked, turns: u64) -> Result<Count, BitsError>
    requires turns { turns ≤ MOST_LIMIT }
    requires ended { TurnsSuffice (tables_of (source_of p.now) turns None).ended }
    ensures answer { IfOk result (IsCount (expected_bits (source_of p.now))) }
    ensures refused { IfErr result (RefusedAt (source_of p.now) turns) }
{
    p.is_kept();
    let (read, failed) = round_bits(alloc, p, turns, None)?;
    match read {
        None => Err(BitsError::TooWide),
        Some(read) => match count_over_rounds(Counted::Bits, p, &read, &failed) {
            None => Err(BitsError::TooWide),
            Some(bits) => Ok(bits),
        },
    }
}

// Whether some run goes on at the limit of turns that is tried.
fn runs_on(alloc: Global, p: &Checked) -> Result<bool, MassError>
    ensures goes_on { IfOk result (λ b. b ≡ true → 0 < (mass_of (source_of p.now) TURNS_TRIED None None (outcome.Limit Turns)).0) }
    ensures ended { IfOk result (λ b. b ≡ false → TurnsSuffice (tables_of (source_of p.now) TURNS_TRIED None).ended) }
    ensures refused { IfErr result (λ e. RoundRefused e (source_of p.now) TURNS_TRIED None) }
{
    p.is_kept();
    let round = round(alloc, p, TURNS_TRIED, None)?;
    match weight_of(&round.rows, Outcome::Limit(Limit::Turns)) {
        Some(_) => Ok(true),
        None => Ok(false),
    }
}

/// Whether every run has ended at the limit of turns that is tried; where not, a program with a loop is refused for `refusal`.
pub fn all_end(alloc: Global, p: &Checked, refusal: BitsError) -> Result<(), BitsError>
    requires { ReadsBeyond (source_of p.now) → RefusedAsWritten (source_of p.now) refusal }
    ensures ended { OnOk result (TurnsSuffice (tables_of (source_of p.now) TURNS_TRIED None).ended) }
    ensures refused { IfErr result (RefusedAsWritten (source_of p.now)) }
{
    match runs_on(alloc, p) {
        Ok(false) => Ok(()),
        Ok(true) => Err(refusal),
        Err(MassError::OutOfMemory) => Err(BitsError::OutOfMemory),
        Err(MassError::TooWide) => Err(refusal),
        Err(MassError::TooManyStates) => Err(refusal),
        Err(MassError::AllFailed) => Err(refusal),
    }
}

/// A program whose loops are not read: its bits at a limit of turns, where every run has ended by then.
pub fn tried(alloc: Global, p: &Checked, refusal: BitsError) -> Result<Count, BitsError>
    requires { ReadsBeyond (source_of p.now) → RefusedAsWritten (source_of p.now) refusal }
    ensures answer { IfOk result (IsCount (expected_bits (source_of p.now))) }
    ensures refused { IfErr result (RefusedAsWritten (source_of p.now)) }
{
    all_end(alloc, p, refusal)?;
    match bits_at(alloc, p, TURNS_TRIED) {
        Ok(bits) => Ok(bits),
        Err(BitsError::OutOfMemory) => Err(BitsError::OutOfMemory),
        Err(BitsError::TooWide) => Err(refusal),
        Err(BitsError::TooManyStates) => Err(refusal),
        Err(BitsError::NotFound) => Err(refusal),
    }
}
