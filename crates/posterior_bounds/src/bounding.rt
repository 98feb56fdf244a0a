// The bounds of a program.

ghost use Rattle.std.specs.Prelude.{◌≡◌, ◌≤◌, ℕ, None, IfOk, IfErr};
ghost use Rattle.numbers.specs.Fraction.{lowest};
ghost use Rattle.gcl_core.specs.weighing.Fractions.{IsBelowOne};
ghost use Rattle.gcl_core.specs.meaning.Views.{source_of};
ghost use Rattle.gcl_core.specs.declared.rules.TheConstants.{MOST_LIMIT};
ghost use Rattle.mass_fold.specs.Refused.{MassRefused};
ghost use Rattle.bounds_law.specs.PosteriorBounds.{fails, upper_of_others};
ghost use Rattle.bounds_law.specs.Rows.{AreBoundsOf, HoldAt};

use crate::rising::{raised, undecided};
use bounds_law::Bounds;
use gcl_core::Checked;
use mass_fold::{MassError, mass};
use std::alloc::Global;

/// Bounds of the mass of each value and each fault that hold for every greater limit of turns, without limits of attempts and of
/// rounds.
///
/// `turns` is the limit of turns for each entry of a loop, at most 10^9. Let a round of `turns` turns give an outcome S, the
/// limit of turns u, and fail with f. The values and faults with S above 0 have a row, with the bounds S/(1 − f) and (S + u)/(1 −
/// f). Every other has at most u/(1 − f).
///
/// `TooWide` comes only where the common denominator of the round is above 2^128 − 1, and `TooManyStates` only where some point
/// of the program is reached with more than 65,536 states. `AllFailed` comes only where f is 1; there no bounds come.
/// `OutOfMemory` comes where memory runs out.
pub fn bounds(alloc: Global, p: &Checked, turns: u64) -> Result<Bounds, MassError>
    requires { turns ≤ MOST_LIMIT }
    ensures rows { IfOk result (λ b. AreBoundsOf (source_of p.now) turns b.rows) }
    ensures other { IfOk result (λ b. b.other ≡ lowest (upper_of_others (source_of p.now) turns)) }
    ensures passes { IfOk result (λ b. IsBelowOne (fails (source_of p.now) turns)) }
    ensures hold { IfOk result
        (λ b. (n : ℕ) → turns ≤ n → IsBelowOne (fails (source_of p.now) n) → HoldAt (source_of p.now) n b.rows b.other) }
    ensures refused { IfErr result (λ e. MassRefused e (source_of p.now) turns None None) }
{
    p.is_kept();
    let masses = mass(alloc, p, turns, None, None)?;
    let other = undecided(&masses);
    Ok(Bounds {
        rows: raised(alloc, &masses, &other)?,
        other,
    })
}
