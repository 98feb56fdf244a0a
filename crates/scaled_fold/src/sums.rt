// The units of a key of a table, and more.

ghost use Rattle.std.specs.Prelude.{◌≡◌, IfOk};
ghost use Rattle.scaled_fold.specs.inner.Sums.{sum_of};

use crate::error::PairsError;
use crate::pair::added;
use std::collections::BTreeMap;

/// What a key has once w units are added.
pub fn sum_at<K: Ord>(
    units: &BTreeMap<K, (u128, u128)>,
    x: &K,
    w: (u128, u128),
) -> Result<(u128, u128), PairsError>
    ensures { IfOk result (λ v. v ≡ sum_of ⟦<K as Ord>⟧.cmp units.now.entries x.now w) }
{
    match units.get(x) {
        Some(v) => added(*v, w),
        None => added((0, 0), w),
    }
}
