// Bounds under a limit of attempts, from a round without one.

ghost use Rattle.std.specs.Prelude.{◌≡◌, ◌≤◌, ◌<◌, ◌*◌, ◌^◌, true, None, Some, IfOk, IfSome};
ghost use Rattle.numbers.specs.declared.units.TheConstants.{ALL};
ghost use Rattle.gcl_core.specs.meaning.Views.{source_of};
ghost use Rattle.gcl_core.specs.weighing.Fractions.{one, AtMost, IsBelowOne};
ghost use Rattle.gcl_core.specs.weighing.Mass.{failed_mass};
ghost use Rattle.units_law.specs.Holding.{AreOrdered, Enclose, AreClose, most_apart};

use crate::error::PairsError;
use crate::listing::{listed, whole_of};
use crate::longest::block_reads;
use crate::rounds::ends_of;
use bounds_law::{BoundRows, Bounds};
use gcl_core::{Checked, outcomes_are_ordered};
use mass_fold::is_ordered;
use numbers::{ALL, Frac};
use scaled_law::{
    attempts_cost_what_they_weigh, bounds_beside_others_hold, masses_lie_beside_others,
    products_are_rounded_up, rounds_hold_masses,
};
use std::alloc::Global;
use units_law::products_are_rounded_down;

// The bits of a number.
fn bits_of(n: u128) -> u64
    ensures below { n < 2 ^ result }
    ensures above { 0 < n → 2 ^ result ≤ 2 * n }
    ensures none { n ≡ 0 → result ≡ 0 }
    ensures few { result ≤ 128 }
{
    if n == 0 { 0 } else { 1 + bits_of(n / 2) }
}

// Whether so many attempts are enough for a limit that weighs one part of 2^-120 at most, where a round reads so many bits by one attempt for each
// draw, and so many units pass of a whole of 2^120, doubled so often.
fn are_enough(attempts: u64, reads: u128, least: u128, doubled: u64) -> bool
    requires { 0 < least }
    ensures enough { result ≡ true → reads * ALL * (ALL * 2 ^ doubled) ≤ 2 ^ attempts * least }
    ensures some { result ≡ true → 1 ≤ attempts }
{
    let most = u128::from(bits_of(reads)) + u128::from(doubled) + 241;
    most <= u128::from(attempts) + u128::from(bits_of(least))
}

/// Bounds as `enclose_in_pairs` gives them for a limit of attempts, from a round in which draws take as many attempts as they need, so that bounds stay
/// narrow however unlikely the evidence is. They are given only where the outcome of the limit is shown to weigh one part of 2^-120 at most: then
/// each lower bound is by such a part less than in that round, and the bound of the others by one more. Each entry of a loop takes at most `turns`
/// turns; runs take as many rounds as they need.
///
/// `NothingLeft` comes where no outcome has a unit at least, and the other causes as `round_in_pairs` tells, and `TooWide` also where what a round
/// may read, all branches together, has more than 128 bits.
pub fn enclose_under_attempts(
    alloc: Global,
    p: &Checked,
    turns: u64,
    attempts: u64,
) -> Result<Option<Bounds>, PairsError>
    ensures ordered { IfOk result (λ found. IfSome found (λ b. AreOrdered b.rows b.other)) }
    ensures passes { IfOk result (λ found. IfSome found (λ b. IsBelowOne (failed_mass (source_of p.now) turns (Some attempts)))) }
    ensures enclose { IfOk result (λ found. IfSome found (λ b. Enclose (source_of p.now) turns (Some attempts) None b.rows b.other)) }
    ensures close { IfOk result (λ found. IfSome found (λ b. AreClose (most_apart None) b.rows b.other)) }
    ensures most { IfOk result (λ found. IfSome found (λ b. AtMost b.other one)) }
{
    p.is_kept();
    products_are_rounded_down();
    products_are_rounded_up();
    rounds_hold_masses();
    masses_lie_beside_others();
    bounds_beside_others_hold();
    attempts_cost_what_they_weigh();
    outcomes_are_ordered();
    let ends = ends_of(alloc, p, turns, None)?;
    is_ordered(&ends.outcomes);
    let whole = whole_of(&ends.outcomes, ends.loose, false)?;
    if whole.least == 0 {
        return Err(PairsError::NothingLeft);
    }
    let program = p.program();
    let reads = block_reads(&program.body, turns)?;
    if !are_enough(attempts, reads, whole.least, ends.doubled) {
        return Ok(None);
    }
    let (rows, kept) = listed(alloc, whole, 1, false, ends.outcomes)?;
    let units = whole.others(1, kept)?;
    Ok(Some(Bounds {
        rows: BoundRows::of(rows),
        other: Frac::of(units, ALL),
    }))
}
