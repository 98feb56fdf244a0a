// Bounds of the masses of a program, by way of its forgetful program.

ghost use Rattle.std.specs.Prelude.{◌≤◌, ℕ, IfOk, IfErr, IfSome, IfNone};
ghost use Rattle.gcl_core.specs.declared.rules.TheConstants.{MOST_LIMIT};
ghost use Rattle.gcl_core.specs.meaning.Views.{source_of};
ghost use Rattle.gcl_core.specs.weighing.Fractions.{IsBelowOne};
ghost use Rattle.gcl_core.specs.weighing.Mass.{failed_mass};
ghost use Rattle.mass_fold.specs.Refused.{IsLimit};
ghost use Rattle.units_law.specs.FewOthers.{HaveLittle};
ghost use Rattle.units_law.specs.Holding.{IsFor, MayEnd, AreOrdered, Enclose, AreClose, most_apart};
ghost use Rattle.forgetting.specs.Forgetful.{forgetful_of};
ghost use Rattle.enclose_fold.specs.Refused.{EncloseRefused};

use crate::answering::enclose_as_written;
use crate::error::EncloseError;
use bounds_law::Bounds;
use forgetting::{forgetful, forgetting_changes_no_meaning};
use gcl_core::Checked;
use std::alloc::Global;

/// Two bounds of the mass of each outcome, and one for all outcomes without a row together, from one round whose products are
/// rounded down to units of 2^-120. Each bound is a multiple of 2^-120.
///
/// `turns` is the limit of turns for each entry of a loop, at most 10^9. `attempts` is that of attempts for each draw, and `rounds`
/// that of rounds, each from 1 to 10^9; where there is none, a draw or a run takes as many as it needs. With `all_turns` the bounds
/// hold for every greater limit of turns too: what ran out of turns has no row, and counts as lost.
///
/// What is lost in a round is at most a unit for each product, and at most six with a limit of attempts. Without a limit of rounds
/// it is divided by what does not fail. Where rounds have no limit, turns are no more than 65,536, and roundings may be more than about
/// 2^-80 of what does not fail, a round is walked again over units at least and at most, which shrink with it
/// (`enclose_in_pairs`); those bounds are given where no unit passes, or where by them the others have less. Two bounds are no further
/// apart than what outcomes without a row have, but for some units; and these have no more than all rounds may lose (`few`).
///
/// The rows are those of the forgetful program, in which states are merged that differ in variables alone whose values no longer matter.
/// They hold of the program itself.
///
/// `TooManyStates` comes only where some point of the forgetful program is reached with more than 65,536 states. Where rounds have no
/// limit and no unit of a round passes, nor has any outcome a unit at least, there are no bounds: `AllFailed` comes only where the whole
/// round fails, and `TooUnlikely` only where a round fails but for what its roundings may have lost.
/// `OutOfMemory` comes where memory runs out.
pub fn enclose(
    alloc: Global,
    p: &Checked,
    turns: u64,
    attempts: Option<u64>,
    rounds: Option<u64>,
    all_turns: bool,
) -> Result<Bounds, EncloseError>
    requires turns { turns ≤ MOST_LIMIT }
    requires attempts { IfSome attempts IsLimit }
    requires rounds { IfSome rounds IsLimit }
    ensures ordered { IfOk result (λ b. AreOrdered b.rows b.other) }
    ensures passes { IfOk result (λ b. IfNone rounds (IsBelowOne (failed_mass (source_of p.now) turns attempts))) }
    ensures enclose { IfOk result
        (λ b. (n : ℕ) → IsFor all_turns turns n → MayEnd (source_of p.now) n attempts rounds → Enclose (source_of p.now) n attempts rounds b.rows b.other) }
    ensures close { IfOk result (λ b. AreClose (most_apart rounds) b.rows b.other) }
    ensures few { IfOk result (λ b. HaveLittle (forgetful_of (source_of p.now)) turns attempts rounds all_turns b.other) }
    ensures refused { IfErr result (λ e. EncloseRefused e (source_of p.now) turns attempts rounds) }
{
    forgetting_changes_no_meaning();
    let q = forgetful(alloc, p)?;
    enclose_as_written(alloc, &q, turns, attempts, rounds, all_turns)
}
