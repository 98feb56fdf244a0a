// Rounds after the first.

ghost use Rattle.std.specs.Prelude.{◌≡◌, ◌≤◌, ◌<◌, IfOk, IfErr, IfSome, IfNone};
ghost use Rattle.mass_fold.specs.Rounds.{IsRepeated, RepeatBlames};
ghost use Rattle.mass_fold.specs.inner.Rounds.{InRounds, RoundsBlame, OverRest, OverRestBlames};
ghost use Rattle.mass_fold.specs.inner.Steps.{IsPower, PowerBlames};

use crate::draws::power;
use crate::error::MassError;
use crate::outcomes::add;
use gcl_core::{Limit, Outcome};
use numbers::Frac;
use std::alloc::Global;
use std::collections::BTreeMap;

/// s + f s + f^2 s + .., a term for each round. `None` where a fraction on the way needs more than 128 bits. Where f is 0, one
/// round is all.
pub fn repeated(s: &Frac, f: &Frac, rounds: u64) -> Option<Frac>
    requires { 1 ≤ rounds }
    ensures value { IfSome result (IsRepeated s.now f.now rounds) }
    ensures cause { IfNone result (RepeatBlames s.now f.now rounds) }
{
    s.is_lowest();
    if f.num() == 0 {
        return Some(*s);
    }
    let mut sum = *s;
    for _ in 1..rounds {
        sum = s.add(&f.mul(&sum)?)?;
    }
    Some(sum)
}

// f to the power of the rounds; none where that needs more than 128 bits. Where f is 0 or 1 it is its own power.
fn all_failed(f: &Frac, rounds: u64) -> Option<Frac>
    requires some { 1 ≤ rounds }
    requires most { f.now.0 ≤ f.now.1 }
    ensures value { IfSome result (IsPower f.now rounds) }
    ensures cause { IfNone result (PowerBlames f.now rounds) }
{
    if f.num() == 0 || f.num() == f.den() {
        return Some(*f);
    }
    power(f, rounds)
}

/// The weights of outcomes in `rounds` rounds, from those in one: each further round gives an outcome its weight again, times
/// the probability that all rounds before failed. What fails in all of them is the limit of rounds. An error comes where a
/// weight needs more than 128 bits, or memory runs out.
pub fn in_rounds(
    alloc: Global,
    table: BTreeMap<Outcome, Frac>,
    failed: &Frac,
    rounds: u64,
) -> Result<BTreeMap<Outcome, Frac>, MassError>
    requires some { 1 ≤ rounds }
    requires most { failed.now.0 ≤ failed.now.1 }
    ensures ok { IfOk result (λ masses. InRounds failed.now rounds table.entries masses.entries) }
    ensures cause { IfErr result (λ e. RoundsBlame e failed.now rounds table.entries) }
{
    let mut masses = BTreeMap::new(alloc);
    for (x, s) in table {
        let mass = repeated(&s, failed, rounds).ok_or(MassError::TooWide)?;
        add(&mut masses, x, &mass)?;
    }
    let rest = all_failed(failed, rounds).ok_or(MassError::TooWide)?;
    add(&mut masses, Outcome::Limit(Limit::Rounds), &rest)?;
    Ok(masses)
}

/// The weights of all rounds without a limit, from those in one: each divided by the probability that a round does not fail. An
/// error comes where a weight needs more than 128 bits, or memory runs out.
pub fn over_rest(
    alloc: Global,
    table: BTreeMap<Outcome, Frac>,
    failed: &Frac,
) -> Result<BTreeMap<Outcome, Frac>, MassError>
    requires { failed.now.0 < failed.now.1 }
    ensures ok { IfOk result (λ masses. OverRest failed.now table.entries masses.entries) }
    ensures cause { IfErr result (λ e. OverRestBlames e failed.now table.entries) }
{
    let rest = Frac::of(failed.den() - failed.num(), failed.den());
    let mut masses = BTreeMap::new(alloc);
    for (x, s) in table {
        let mass = s.div(&rest).ok_or(MassError::TooWide)?;
        add(&mut masses, x, &mass)?;
    }
    Ok(masses)
}
