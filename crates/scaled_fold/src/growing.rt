// How units grow with what has not failed.

ghost use Rattle.std.specs.Prelude.{◌≡◌, ◌≤◌, ◌+◌, ◌^◌, IfOk};
ghost use Rattle.scaled_law.specs.Growth.{left_of};
ghost use Rattle.scaled_law.specs.Scaled.{Scaled, times_all};
ghost use Rattle.scaled_fold.specs.Doubling.{doubled, doubling};
ghost use Rattle.scaled_fold.specs.inner.Holding.{Holds, Follows};

use crate::error::PairsError;
use crate::pair::{sum, times};
use crate::tables::{all_of, multiplied};
use crate::walk::Walk;
use numbers::ALL;
use std::alloc::Global;

// How often, at most `most` times, units may be doubled within `ALL`.
fn doublings(most: u32, w: u128) -> u32
    requires { most ≤ 120 }
    ensures value { 2 ^ result ≡ doubled most w }
    ensures most { result ≤ most }
{
    if most == 0 || w > ALL / 2 {
        return 0;
    }
    1 + doublings(most - 1, 2 * w)
}

// The units of what has not failed, at most.
fn left_of(walk: &Walk) -> Result<u128, PairsError>
    ensures { IfOk result (λ n. (f : Scaled) → Holds f walk.now → n ≡ left_of f) }
{
    let (_, next) = all_of(&walk.next)?;
    let aside = walk.aside.most()?;
    let ended = sum(walk.ended.most()?, walk.loose.1)?;
    sum(next, sum(aside, ended)?)
}

// So often more.
fn counted(doubled: u64, more: u32) -> Result<u64, PairsError>
    ensures { IfOk result (λ n. n ≡ doubled + more) }
{
    match doubled.checked_add(u64::from(more)) {
        Some(n) => Ok(n),
        None => Err(PairsError::TooWide),
    }
}

// With units doubled so often.
fn doubled_walk(alloc: Global, walk: Walk, more: u32) -> Result<Walk, PairsError>
    requires { more ≤ 120 }
    ensures { IfOk result (Follows (times_all (2 ^ more, 1)) walk) }
{
    let k = 2u128.pow(more);
    Ok(Walk {
        next: multiplied(alloc, &walk.next, k)?,
        aside: walk.aside.multiplied(alloc, k)?,
        ended: walk.ended.times(k)?,
        loose: times(walk.loose, k)?,
        doubled: counted(walk.doubled, more)?,
    })
}

/// With units doubled as often as what has not failed leaves room for.
pub fn grown(alloc: Global, walk: Walk) -> Result<Walk, PairsError>
    ensures { IfOk result (Follows (λ f. times_all (doubling.factor f) f) walk) }
{
    let more = doublings(120, left_of(&walk)?);
    if more == 0 {
        return Ok(walk);
    }
    doubled_walk(alloc, walk, more)
}
