// A round of a program over pairs of units.

ghost use Rattle.std.specs.Prelude.{◌≡◌, ◌<◌, ◌*◌, ◌^◌, ℕ, Bool, true, IfOk};
ghost use Rattle.numbers.specs.declared.units.TheConstants.{ALL};
ghost use Rattle.gcl_core.specs.declared.answers.Outcome.{Outcome};
ghost use Rattle.gcl_core.specs.meaning.Views.{source_of};
ghost use Rattle.gcl_core.specs.weighing.Fractions.{IsBelowOne};
ghost use Rattle.gcl_core.specs.weighing.Mass.{failed_mass};
ghost use Rattle.units_law.specs.Holding.{IsFor};
ghost use Rattle.scaled_fold.specs.Doubling.{doubled_round};
ghost use Rattle.scaled_fold.specs.Ends.{LieBeside, least_given};
ghost use Rattle.scaled_fold.specs.inner.Outcomes.{RoundGives};

use crate::body::walk_through;
use crate::error::PairsError;
use crate::outcomes::outcomes_of;
use gcl_core::{Checked, Outcome};
use scaled_law::{masses_lie_beside_others, products_are_rounded_up};
use std::alloc::Global;
use std::collections::BTreeMap;
use units_law::products_are_rounded_down;

/// What a round gives: the units of each outcome at least and at most, at most what is loose, which belongs to no outcome yet, and how often
/// units were doubled on the way: one whole is 2^120 units, doubled so often.
#[derive(Drop)]
pub struct Ends {
    pub outcomes: BTreeMap<Outcome, (u128, u128)>,
    pub loose: u128,
    pub doubled: u64,
}

/// What the walk through a program leads to.
pub fn ends_of(
    alloc: Global,
    p: &Checked,
    turns: u64,
    attempts: Option<u64>,
) -> Result<Ends, PairsError>
    ensures round { IfOk result (λ e. RoundGives (source_of p.now) turns attempts e.outcomes.entries e.loose) }
    ensures scale { IfOk result (λ e. (doubled_round (source_of p.now) turns attempts).scale ≡ (ALL * 2 ^ e.doubled, 1)) }
{
    let program = p.program();
    let walk = walk_through(alloc, p, turns, attempts)?;
    Ok(Ends {
        outcomes: outcomes_of(alloc, &program.result, &walk.next, walk.ended)?,
        loose: walk.loose.1,
        doubled: walk.doubled,
    })
}

/// The outcomes of one round of a program, each with the units that it has at least, with products rounded down, and those that it
/// has at most, with products rounded up. Each entry of a loop takes at most `turns` turns, and each draw at most `attempts` attempts, or as
/// many as it needs; runs take as many rounds as they need.
///
/// How much a unit is changes on the way: after each statement all units are doubled as often as what has not failed still stays
/// within 2^120, so they stay small beside it however unlikely the evidence is. What fails is counted nowhere.
///
/// The mass of any set of outcomes lies between what its units at least are beside those that all others have at most, and the reverse;
/// what is loose counts for all at most. With `all_turns` so it is for every greater limit of turns too.
///
/// `TooManyStates` comes where a point is reached with more than 65,536 states, `TooWide` where a number of units has more than 128 bits,
/// and `OutOfMemory` where memory runs out.
pub fn round_in_pairs(
    alloc: Global,
    p: &Checked,
    turns: u64,
    attempts: Option<u64>,
) -> Result<Ends, PairsError>
    ensures between { IfOk result (λ e. (all_turns : Bool) (n : ℕ) → IsFor all_turns turns n → IsBelowOne (failed_mass (source_of p.now) n attempts) →
        (meant : Outcome → Bool) → LieBeside all_turns e.outcomes.entries e.loose (source_of p.now) n attempts meant) }
    ensures passes { IfOk result (λ e. (all_turns : Bool) (n : ℕ) → IsFor all_turns turns n →
        0 < least_given all_turns e.outcomes.entries e.loose (λ x. true) → IsBelowOne (failed_mass (source_of p.now) n attempts)) }
    ensures round { IfOk result (λ e. RoundGives (source_of p.now) turns attempts e.outcomes.entries e.loose) }
    ensures scale { IfOk result (λ e. (doubled_round (source_of p.now) turns attempts).scale ≡ (ALL * 2 ^ e.doubled, 1)) }
{
    products_are_rounded_down();
    products_are_rounded_up();
    masses_lie_beside_others();
    p.is_kept();
    ends_of(alloc, p, turns, attempts)
}
