// Each mass as a lower bound, and with what ran out of turns as an upper bound.

ghost use Rattle.std.specs.Prelude.{◌≡◌, None, IfOk, IfErr, IfSome, IfNone};
ghost use Rattle.numbers.specs.Fraction.{lowest};
ghost use Rattle.numbers.specs.Arithmetic.{sum_of};
ghost use Rattle.gcl_core.specs.declared.answers.Limit.TheVariants.{Turns};
ghost use Rattle.gcl_core.specs.declared.answers.Outcome.TheVariants as outcome;
ghost use Rattle.gcl_core.specs.weighing.Fractions.{plus};
ghost use Rattle.gcl_core.specs.meaning.Outcomes.{same_outcome, is_settled};
ghost use Rattle.posterior_bounds.specs.inner.Rising.{mass_in, raised, RaiseRefused};

use bounds_law::BoundRows;
use gcl_core::{Limit, Outcome};
use mass_fold::{FracRows, MassError};
use numbers::Frac;
use std::alloc::Global;

// Whether it is the limit of turns.
fn ran_out(x: &Outcome) -> bool
    ensures { result ≡ same_outcome (outcome.Limit Turns) x.now }
{
    match x {
        Outcome::Limit(Limit::Turns) => true,
        Outcome::Limit(Limit::Attempts | Limit::Rounds) | Outcome::Value(_) | Outcome::Fault(_) =>
            false,
    }
}

/// The mass of the limit of turns.
pub fn undecided(masses: &FracRows) -> Frac
    ensures { result ≡ mass_in (outcome.Limit Turns) masses.now }
{
    for i in 0..masses.count() {
        let (x, mass) = masses.get(i);
        if ran_out(x) {
            return *mass;
        }
    }
    Frac::of(0, 1)
}

// Whether it is a value or a fault.
fn is_settled(x: &Outcome) -> bool
    ensures { result ≡ is_settled x.now }
{
    match x {
        Outcome::Value(_) | Outcome::Fault(_) => true,
        Outcome::Limit(_) => false,
    }
}

// A mass and what ran out of turns; none where it does not fit.
fn upper(low: &Frac, other: &Frac) -> Option<Frac>
    ensures value { IfSome result (λ high. high ≡ lowest (plus low.now other.now)) }
    ensures cause { IfNone result (sum_of low.now other.now ≡ None) }
{
    low.is_lowest();
    other.is_lowest();
    let high = low.add(other)?;
    high.is_lowest();
    Some(high)
}

/// The rows of bounds over those of masses, where all others have so much.
pub fn raised(alloc: Global, masses: &FracRows, other: &Frac) -> Result<BoundRows, MassError>
    ensures rows { IfOk result (λ rows. rows ≡ raised other.now masses.now) }
    ensures refused { IfErr result (λ e. RaiseRefused e other.now masses.now) }
{
    let mut rows = Vec::new(alloc);
    for i in 0..masses.count() {
        let (x, low) = masses.get(i);
        if is_settled(x) {
            match upper(low, other) {
                Some(high) => rows.push((*x, *low, high))?,
                None => return Err(MassError::TooWide),
            }
        }
    }
    Ok(BoundRows::of(rows))
}
