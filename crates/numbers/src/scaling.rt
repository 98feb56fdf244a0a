// A weight times a fraction of two whole numbers.

ghost use Rattle.std.specs.Prelude.{◌≡◌, ◌≤◌, ◌*◌, ◌/◌};

/// `w` units times `num` over `den`, rounded down.
pub fn part_down(w: u128, num: u64, den: u64) -> u128
    requires some { 1 ≤ den }
    requires share { num ≤ den }
    ensures value { result ≡ w * num / den }
    ensures most { result ≤ w }
{
    let (num, den) = (u128::from(num), u128::from(den));
    w / den * num + w % den * num / den
}
