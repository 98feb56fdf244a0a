// The bits of one attempt of a uniform draw.

ghost use Rattle.std.specs.Prelude.{◌≡◌, ◌≤◌, ◌<◌, ◌*◌, ◌^◌};
ghost use Rattle.gcl_core.specs.meaning.Draw.{bits_for, uniform_ends};
ghost use Rattle.cost_law.specs.ExpectedBits.{attempt_bits};
ghost use Rattle.attempt_bits.specs.inner.Undecided.{undecided_below};

use draw_tree::bits_for;

// The numbers in all stretches that have more than one class, as `choices` counts them, of 2^depth numbers: the first `rest`
// have each a class of its own, and the others are rejected. Either all numbers of the first half are among those, or none of
// the second.
fn undecided(depth: u32, rest: u64) -> u128
    requires depth { depth ≤ 63 }
    requires some { 1 ≤ rest }
    requires fits { rest ≤ 2 ^ depth }
    ensures value { result ≡ undecided_below depth rest }
    ensures most { result ≤ depth * 2 ^ depth }
{
    if depth == 0 {
        return 0;
    }
    let half = 1 << (depth - 1);
    let wide = u128::from(half);
    if rest > half {
        let right = undecided(depth - 1, rest - half);
        2 * wide + u128::from(depth - 1) * wide + right
    } else {
        2 * wide + undecided(depth - 1, rest)
    }
}

/// The bits that one attempt of a uniform draw reads on average, times 2^k for numbers of k bits: the first number of
/// `attempt_bits`, whose second number is 2^k. It is at most k * 2^k.
pub fn uniform_bits(bound: u64) -> u128
    requires some { 1 ≤ bound }
    requires fits { bound < 2 ^ 63 }
    ensures value { result ≡ (attempt_bits (uniform_ends bound)).0 }
    ensures most { result ≤ bits_for bound * 2 ^ bits_for bound }
{
    undecided(bits_for(bound), bound)
}
