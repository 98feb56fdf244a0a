// The weights of a round over what does not fail, in wide fractions.

ghost use Rattle.std.specs.Prelude.{◌≡◌, ◌<◌, ◌≤◌, ◌↔◌, ℕ, true, IfOk, IsTrue};
ghost use Rattle.numbers.specs.Fraction.{lowest};
ghost use Rattle.table_flow.specs.Scale.{Whole};
ghost use Rattle.mass_fold.specs.Amounts.{AreHeld};
ghost use Rattle.mass_fold.specs.inner.Rounds.{TableParts, OverRest};
ghost use Rattle.exact_fold.specs.inner.Rounds.{SumsTo};

use crate::outcomes::add;
use gcl_core::Outcome;
use std::alloc::Global;
use std::cmp::Ordering;
use std::collections::BTreeMap;
use wide_fold::WideFoldError;
use wide_numbers::{Wide, WideFraction};

fn nothing(alloc: Global) -> Result<WideFraction, WideFoldError>
    ensures { IfOk result (λ f. f ≡ lowest (0, 1)) }
{
    let num = Wide::of(alloc, 0)?;
    let den = Wide::of(alloc, 1)?;
    Ok(WideFraction::of(alloc, &num, &den)?)
}

/// The sum of the weights.
pub fn total(
    alloc: Global,
    rows: &BTreeMap<Outcome, WideFraction>,
) -> Result<WideFraction, WideFoldError>
    ensures { IfOk result (SumsTo rows.now.entries) }
{
    let mut sum = nothing(alloc)?;
    for (_, f) in rows {
        sum = sum.add(alloc, f)?;
    }
    Ok(sum)
}

/// Whether a number is at most another.
pub fn is_at_most(one: &Wide, other: &Wide) -> bool
    ensures { IsTrue result ↔ one.now ≤ other.now }
{
    !matches!(one.compare(other), Ordering::Greater)
}

/// Whether the weights of a table and what failed are no more than one whole.
pub fn are_parts(
    alloc: Global,
    rows: &BTreeMap<Outcome, WideFraction>,
    failed: &WideFraction,
) -> Result<bool, WideFoldError>
    ensures { IfOk result (λ b. b ≡ true → (N : ℕ) → 0 < N → AreHeld N rows.now.entries → Whole N failed.now →
        TableParts N rows.now.entries failed.now) }
{
    let sum = total(alloc, rows)?;
    let all = sum.add(alloc, failed)?;
    Ok(is_at_most(all.num(), all.den()))
}

/// The weights of all rounds, from those in one: each divided by the weight with which a round does not fail.
pub fn over_rest(
    alloc: Global,
    table: BTreeMap<Outcome, WideFraction>,
    failed: &WideFraction,
) -> Result<BTreeMap<Outcome, WideFraction>, WideFoldError>
    requires { failed.now.0 < failed.now.1 }
    ensures { IfOk result (λ masses. OverRest failed.now table.entries masses.entries) }
{
    let rest = failed.den().sub(alloc, failed.num())?;
    let times = WideFraction::of(alloc, failed.den(), &rest)?;
    let mut masses = BTreeMap::new(alloc);
    for (x, s) in table {
        let mass = s.mul(alloc, &times)?;
        add(alloc, &mut masses, x, &mass)?;
    }
    Ok(masses)
}
