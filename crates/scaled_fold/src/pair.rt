// Two numbers of units: those that something has at least, and those that it has at most.

ghost use Rattle.std.specs.Prelude.{◌≡◌, ◌≤◌, ◌+◌, ◌*◌, IfOk};
ghost use Rattle.std.specs.Int.{div_ceil};
ghost use Rattle.scaled_law.specs.Pairs.{added};
ghost use Rattle.scaled_law.specs.Scaled.{times_pair};

use crate::error::PairsError;
use numbers::part_down;

/// A sum of units.
pub fn sum(a: u128, b: u128) -> Result<u128, PairsError>
    ensures { IfOk result (λ n. n ≡ a + b) }
{
    match a.checked_add(b) {
        Some(n) => Ok(n),
        None => Err(PairsError::TooWide),
    }
}

/// A multiple of units.
pub fn multiple(a: u128, k: u128) -> Result<u128, PairsError>
    ensures { IfOk result (λ n. n ≡ a * k) }
{
    match a.checked_mul(k) {
        Some(n) => Ok(n),
        None => Err(PairsError::TooWide),
    }
}

/// Both together.
pub fn added(a: (u128, u128), b: (u128, u128)) -> Result<(u128, u128), PairsError>
    ensures { IfOk result (λ w. w ≡ added a b) }
{
    let least = sum(a.0, b.0)?;
    let most = sum(a.1, b.1)?;
    Ok((least, most))
}

/// `k` times as many.
pub fn times(w: (u128, u128), k: u128) -> Result<(u128, u128), PairsError>
    ensures { IfOk result (λ v. v ≡ times_pair (k, 1) w) }
{
    let least = multiple(w.0, k)?;
    let most = multiple(w.1, k)?;
    Ok((least, most))
}

/// `w` units times `count` over `bound`, rounded up.
pub fn part_up(w: u128, count: u64, bound: u64) -> u128
    requires some { 1 ≤ bound }
    requires part { count ≤ bound }
    ensures { result ≡ div_ceil (w * count) bound }
{
    let whole = part_down(w, count, bound);
    let (count, bound) = (u128::from(count), u128::from(bound));
    if w % bound * count % bound == 0 {
        whole
    } else {
        whole + 1
    }
}
