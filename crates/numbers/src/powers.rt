// Powers of a weight.

ghost use Rattle.std.specs.Prelude.{◌≡◌, ◌≤◌};
ghost use Rattle.numbers.specs.Units.{power_down, power_up};
ghost use Rattle.numbers.specs.declared.units.TheConstants.{ALL};

use crate::ALL;
use crate::sharing::{share_down, share_up};

/// `q` units to the power of `count`, each product rounded down. It ends where a product changes nothing, so it takes at most
/// 122 products where `q` is at most half of the whole.
pub fn power_down(q: u128, count: u64) -> u128
    requires { q ≤ ALL }
    ensures value { result ≡ power_down q count }
    ensures most { result ≤ ALL }
{
    let mut power = ALL;
    for _ in 0..count {
        let next = share_down(q, power);
        if next == power {
            return power;
        }
        power = next;
    }
    power
}

/// `q` units to the power of `count`, each product rounded up. It ends where a product changes nothing, so it takes at most 121
/// products where `q` is at most half of the whole.
pub fn power_up(q: u128, count: u64) -> u128
    requires { q ≤ ALL }
    ensures value { result ≡ power_up q count }
    ensures most { result ≤ ALL }
{
    let mut power = ALL;
    for _ in 0..count {
        let next = share_up(q, power);
        if next == power {
            return power;
        }
        power = next;
    }
    power
}
