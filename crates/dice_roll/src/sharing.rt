//! What the labels of a draw weigh.
ghost use Rattle.std.specs.Prelude.{◌≡◌, ◌≤◌, ◌^◌};
ghost use Rattle.dice_roll.specs.declared.rules.TheConstants as rule;
ghost use Rattle.dice_roll.specs.Fair.{IsFair};
ghost use Rattle.dice_roll.specs.Shares.{shares_of};

use crate::rules::MOST_WEIGHED_FLIPS;
use numbers::Frac;

/// The weight of each of `m` labels within `flips` bits, and the weight that is left to the limit, as fractions in
/// lowest terms. `None` comes exactly where there are more bits than [`MOST_WEIGHED_FLIPS`].
#[tactic(auto, using(crate::proofs::Fairness::fair))]
pub fn share(m: u64, flips: u64) -> Option<(Frac, Frac)>
    requires low { rule.LEAST_LABELS ≤ m }
    requires high { m ≤ rule.MOST_LABELS }
    requires few { flips ≤ rule.MOST_FLIPS }
    ensures value { result ≡ shares_of m flips }
    ensures law { IsFair m }
{
    if flips > MOST_WEIGHED_FLIPS {
        return None;
    }
    let whole: u128 = 1 << flips;
    let labels = u128::from(m);
    let each = whole / labels;
    Some((
        Frac::of(each, whole),
        Frac::of(whole - labels * each, whole),
    ))
}
