// The greatest common divisor, by differences of odd numbers: Stein's algorithm, which divides by nothing but powers of 2.

ghost use Rattle.std.specs.Prelude.{◌≡◌, ◌<◌, ◌≤◌, ◌*◌, ◌^◌, ◌%◌};
ghost use Rattle.std.specs.Int.{IsGcd, trailing_zeros, w128};
ghost use Rattle.numbers.specs.Divisor.{gcd};

// The number without its factors of 2.
fn odd_part(n: u128) -> u128
    requires { 0 < n }
    ensures value { result * 2 ^ trailing_zeros w128 n ≡ n }
    ensures odd { result % 2 ≡ 1 }
{
    n >> n.trailing_zeros()
}

// The greatest common divisor of two odd numbers.
fn odd_divisor(a: u128, b: u128) -> u128
    requires first { a % 2 ≡ 1 }
    requires second { b % 2 ≡ 1 }
    ensures { IsGcd a b result }
{
    let mut first = a;
    let mut second = b;
    while first != second {
        if first < second {
            second = odd_part(second - first);
        } else {
            first = odd_part(first - second);
        }
    }
    first
}

/// The greatest common divisor; where one number is 0 it is the other.
pub(crate) fn gcd(a: u128, b: u128) -> u128
    ensures value { result ≡ gcd a b }
    ensures positive { 1 ≤ b → 1 ≤ result }
{
    if a == 0 {
        return b;
    }
    if b == 0 {
        return a;
    }
    let twos = a.trailing_zeros().min(b.trailing_zeros());
    odd_divisor(odd_part(a), odd_part(b)) << twos
}
