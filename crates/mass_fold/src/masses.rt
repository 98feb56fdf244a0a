// The masses of a program.

ghost use Rattle.std.specs.Prelude.{◌≡◌, ◌≤◌, ℕ, Option, IfOk, IfErr, IfSome, IfNone};
ghost use Rattle.numbers.specs.Fraction.{lowest};
ghost use Rattle.gcl_core.specs.weighing.Fractions.{IsBelowOne};
ghost use Rattle.gcl_core.specs.weighing.Mass.{round_mass, failed_mass, mass_of};
ghost use Rattle.gcl_core.specs.meaning.Outcomes.{same_outcome};
ghost use Rattle.gcl_core.specs.meaning.Views.{source_of};
ghost use Rattle.gcl_core.specs.declared.rules.TheConstants.{MOST_LIMIT};
ghost use Rattle.table_flow.specs.Width.{round_width, width_of};
ghost use Rattle.mass_fold.specs.Amounts.{WholeWithin};
ghost use Rattle.mass_fold.specs.inner.Masses.{RoundGives};
ghost use Rattle.mass_fold.specs.Refused.{IsLimit, RoundRefused, MassRefused};
ghost use Rattle.mass_fold.specs.Rows.{AreMasses};

use crate::attempts::Attempts;
use crate::body::fold_body;
use crate::error::MassError;
use crate::meter::Meter;
use crate::outcomes::{add_ended, add_results};
use crate::rounds::{in_rounds, over_rest};
use crate::rows::{FracRows, Round};
use gcl_core::{Checked, Outcome};
use numbers::Frac;
use std::alloc::Global;
use std::collections::BTreeMap;

// The outcomes of one round with their weights, and the weight of a failed one.
fn one_round(
    alloc: Global,
    p: &Checked,
    turns: u64,
    attempts: Attempts,
) -> Result<(BTreeMap<Outcome, Frac>, Frac), MassError>
    ensures ok { IfOk result (λ t. RoundGives (source_of p.now) turns attempts.most t.0.entries t.1) }
    ensures cause { IfErr result (λ e. RoundRefused e (source_of p.now) turns attempts.most) }
{
    let program = p.program();
    let mut meter = Meter::Off;
    let (table, ended) = fold_body(alloc, p, turns, attempts, &mut meter)?;
    let mut rows = BTreeMap::new(alloc);
    add_results(&program.result, &table, &mut rows)?;
    add_ended(&ended, &mut rows)?;
    Ok((rows, ended.failed))
}

/// The mass of each outcome in one round of a program, and that of a failed observation, by merged tables of states.
///
/// `turns` is the limit of turns for each entry of a loop, at most 10^9. `attempts` is that of attempts for each draw, from 1 to
/// 10^9; where there is none, a draw takes as many as it needs.
///
/// `TooWide` comes only where the common denominator of the round is above 2^128 − 1, and `TooManyStates` only where some point
/// of the program is reached with more than 65,536 states. `AllFailed` never comes, and `OutOfMemory` where memory runs out.
///
/// Only tests and users of the crate call it.
pub fn round(
    alloc: Global,
    p: &Checked,
    turns: u64,
    attempts: Option<u64>,
) -> Result<Round, MassError>
    requires turns { turns ≤ MOST_LIMIT }
    requires attempts { IfSome attempts IsLimit }
    ensures rows { IfOk result (λ t. AreMasses (λ x. round_mass (source_of p.now) turns attempts (same_outcome x)) t.rows) }
    ensures failed { IfOk result (λ t. t.failed ≡ lowest (failed_mass (source_of p.now) turns attempts)) }
    ensures refused { IfErr result (λ e. RoundRefused e (source_of p.now) turns attempts) }
{
    let (table, failed) = one_round(alloc, p, turns, Attempts { most: attempts })?;
    failed.is_lowest();
    Ok(Round {
        rows: FracRows::of(alloc, table)?,
        failed,
    })
}

/// The mass of each outcome of a program, by merged tables of states.
///
/// `turns` and `attempts` are as for `round`. `rounds` is the limit of rounds, from 1 to 10^9; where there is none, what a round
/// gives is divided by the probability that a round does not fail.
///
/// `TooWide` comes only where the width of the program under these limits is above 2^128 − 1, and `TooManyStates` only where some
/// point of the program is reached with more than 65,536 states. `AllFailed` comes only where rounds have no limit and each round
/// fails; there no rows come. `OutOfMemory` comes where memory runs out.
pub fn mass(
    alloc: Global,
    p: &Checked,
    turns: u64,
    attempts: Option<u64>,
    rounds: Option<u64>,
) -> Result<FracRows, MassError>
    requires turns { turns ≤ MOST_LIMIT }
    requires attempts { IfSome attempts IsLimit }
    requires rounds { IfSome rounds IsLimit }
    ensures rows { IfOk result (AreMasses (mass_of (source_of p.now) turns attempts rounds)) }
    ensures passes { IfOk result (λ rows. IfNone rounds (IsBelowOne (failed_mass (source_of p.now) turns attempts))) }
    ensures parts { IfOk result (λ rows. IfNone rounds (WholeWithin (width_of (source_of p.now) turns attempts rounds) rows)) }
    ensures refused { IfErr result (λ e. MassRefused e (source_of p.now) turns attempts rounds) }
{
    p.is_kept();
    let (table, failed) = one_round(alloc, p, turns, Attempts { most: attempts })?;
    failed.is_lowest();
    match rounds {
        Some(count) => FracRows::of(alloc, in_rounds(alloc, table, &failed, count)?),
        None => {
            if failed.num() == failed.den() {
                return Err(MassError::AllFailed);
            }
            FracRows::of(alloc, over_rest(alloc, table, &failed)?)
        }
    }
}
