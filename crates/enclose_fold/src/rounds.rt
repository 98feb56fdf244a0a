// What some rounds give, from one.

ghost use Rattle.std.specs.Prelude.{◌≡◌, ◌≤◌, ◌+◌};
ghost use Rattle.numbers.specs.declared.units.TheConstants.{ALL};
ghost use Rattle.units_law.specs.SomeRounds.{followed, in_rounds};

use numbers::{ALL, share_down};

// The rounds of `a`, and then those of `b` where all of `a` failed: the units of what fails in all of them, and of what outcomes have
// in them.
fn followed(a: (u128, u128), b: (u128, u128)) -> (u128, u128)
    requires first { a.0 + a.1 ≤ ALL }
    requires second { b.0 + b.1 ≤ ALL }
    ensures value { result ≡ followed a b }
    ensures within { result.0 + result.1 ≤ ALL }
{
    (share_down(a.0, b.0), a.1 + share_down(a.0, b.1))
}

/// The units of what fails in all of some rounds, and of what some outcomes have in them, from those of one round. They take at most
/// four products for each binary digit of the number of rounds.
pub fn in_rounds(one: (u128, u128), rounds: u64) -> (u128, u128)
    requires { one.0 + one.1 ≤ ALL }
    ensures value { result ≡ in_rounds one rounds }
    ensures within { result.0 + result.1 ≤ ALL }
{
    if rounds == 0 {
        return (ALL, 0);
    }
    let half = in_rounds(one, rounds / 2);
    let twice = followed(half, half);
    if rounds % 2 == 0 {
        twice
    } else {
        followed(one, twice)
    }
}
