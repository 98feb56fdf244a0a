// What the outcomes of runs weigh.

ghost use Rattle.std.specs.Prelude.{◌≡◌, ◌<◌, ℕ, true, length, Some, slice_get, IfOk, IfErr, IfSome, IfNone, Contains};
ghost use Rattle.numbers.specs.Fraction.{Fraction};
ghost use Rattle.gcl_core.specs.meaning.Runs.{run_on};
ghost use Rattle.gcl_core.specs.meaning.LimitRange.{InRange};
ghost use Rattle.gcl_core.specs.meaning.Views.{source_of};
ghost use Rattle.mass_fold.specs.Refused.{MassRefused};
ghost use Rattle.weighing_law.specs.Weighing.{WeighsExactly, limited_mass};
ghost use Rattle.exact_fold.specs.Refused.{WhyRefused};
ghost use Rattle.gcl_core.specs.meaning.Outcomes.{is_settled};
ghost use Rattle.library_user.specs.Chance.{IsChance};
ghost use Rattle.library_user.specs.LimitChance.{IsLimitChance};

use exact_fold::{ExactError, exact, exact_masses_are_limits};
use forgetting::{forgetting_changes_no_meaning, forgetting_keeps_programs_checked};
use gcl_core::{Checked, Limits, Outcome};
use mass_fold::{FracRows, MassError, mass};
use numbers::Frac;
use std::alloc::Global;
use weighing_law::runs_weigh_exactly;

// The fraction in the row of an outcome.
fn find(rows: &FracRows, x: Outcome) -> Option<Frac>
    ensures found { IfSome result (λ f. Contains rows.now (x, f)) }
    ensures none { IfNone result ((f : Fraction) → Contains rows.now (x, f) → ⊥) }
{
    for i in 0..rows.count() {
        let (outcome, f) = rows.get(i);
        if *outcome == x {
            return Some(*f);
        }
    }
    None
}

/// The chance of an outcome under these limits, as a fraction in lowest terms, or `None` where it is 0. The strings of bits on
/// which the program's run ends in the outcome weigh exactly that. `TooWide` and `TooManyStates` come only where the masses of
/// the program under these limits are too wide, or of too many states, and `AllFailed` never.
pub fn chance(alloc: Global, p: &Checked, l: &Limits, x: Outcome) -> Result<Option<Frac>, MassError>
    requires limits { InRange l.now }
    ensures mass { IfOk result (λ f. IsChance f (limited_mass (source_of p.now) l.now x)) }
    ensures refused { IfErr result (λ e. MassRefused e (source_of p.now) l.now.turns (Some l.now.attempts) (Some l.now.rounds)) }
    ensures weighs { WeighsExactly (run_on (source_of p.now) l.now) (source_of p.now) l.now }
{
    runs_weigh_exactly();
    p.is_kept();
    let rows = mass(alloc, p, l.turns, Some(l.attempts), Some(l.rounds))?;
    Ok(find(&rows, x))
}

/// The chance of a value or of a fault where nothing is limited, as a fraction in lowest terms, or `None` where it is 0. It is the
/// limit of the chances as loops may take more and more turns. `AllFailed` comes only where in the limit every round fails.
pub fn limit_chance(alloc: Global, p: &Checked, x: Outcome) -> Result<Option<Frac>, ExactError>
    requires settled { is_settled x ≡ true }
    ensures limit { IfOk result (IsLimitChance (source_of p.now) x) }
    ensures refused { IfErr result (WhyRefused (source_of p.now)) }
{
    exact_masses_are_limits();
    forgetting_changes_no_meaning();
    forgetting_keeps_programs_checked();
    p.is_kept();
    let masses = exact(alloc, p)?;
    Ok(find(&masses.rows, x))
}
