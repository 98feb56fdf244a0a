// Bounds of the masses of a program, from one round over pairs of units.

ghost use Rattle.std.specs.Prelude.{ℕ, None, IfOk};
ghost use Rattle.gcl_core.specs.meaning.Views.{source_of};
ghost use Rattle.gcl_core.specs.weighing.Fractions.{one, AtMost, IsBelowOne};
ghost use Rattle.gcl_core.specs.weighing.Mass.{failed_mass};
ghost use Rattle.units_law.specs.Holding.{IsFor, AreOrdered, Enclose, AreClose, most_apart};

use crate::error::PairsError;
use crate::listing::{listed, whole_of};
use crate::rounds::ends_of;
use bounds_law::{BoundRows, Bounds};
use gcl_core::{Checked, outcomes_are_ordered};
use mass_fold::is_ordered;
use numbers::{ALL, Frac};
use scaled_law::{bounds_beside_others_hold, masses_lie_beside_others, products_are_rounded_up};
use std::alloc::Global;
use units_law::products_are_rounded_down;

/// Two bounds of the mass of each outcome, and one for all outcomes without a row together, from one round over pairs of units: what an
/// outcome has at least beside what all others have at most, and the reverse. Each bound is a multiple of 2^-120. Each entry of a loop takes at
/// most `turns` turns, and each draw at most `attempts` attempts, or as many as it needs; runs take as many rounds as they need. With
/// `all_turns` the bounds hold for every greater limit of turns too.
///
/// The bound of the others is at least how far apart two bounds may be, and at most 1.
///
/// `NothingLeft` comes where no outcome has a unit at least, and the other causes as `round_in_pairs` tells.
pub fn enclose_in_pairs(
    alloc: Global,
    p: &Checked,
    turns: u64,
    attempts: Option<u64>,
    all_turns: bool,
) -> Result<Bounds, PairsError>
    ensures ordered { IfOk result (λ b. AreOrdered b.rows b.other) }
    ensures passes { IfOk result (λ b. IsBelowOne (failed_mass (source_of p.now) turns attempts)) }
    ensures enclose { IfOk result (λ b. (n : ℕ) → IsFor all_turns turns n → Enclose (source_of p.now) n attempts None b.rows b.other) }
    ensures close { IfOk result (λ b. AreClose (most_apart None) b.rows b.other) }
    ensures most { IfOk result (λ b. AtMost b.other one) }
{
    p.is_kept();
    products_are_rounded_down();
    products_are_rounded_up();
    masses_lie_beside_others();
    bounds_beside_others_hold();
    outcomes_are_ordered();
    let ends = ends_of(alloc, p, turns, attempts)?;
    is_ordered(&ends.outcomes);
    let whole = whole_of(&ends.outcomes, ends.loose, all_turns)?;
    if whole.least == 0 {
        return Err(PairsError::NothingLeft);
    }
    let (rows, kept) = listed(alloc, whole, 0, all_turns, ends.outcomes)?;
    let units = whole.others(0, kept)?;
    Ok(Bounds {
        rows: BoundRows::of(rows),
        other: Frac::of(units, ALL),
    })
}
