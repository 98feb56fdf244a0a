// The bits of one attempt of a choice, between two arms or among several.

ghost use Rattle.std.specs.Prelude.{◌≡◌, ◌≤◌, ◌+◌, ◌*◌, ◌^◌, length};
ghost use Rattle.gcl_core.specs.declared.rules.TheConstants.{GREATEST_DENOMINATOR};
ghost use Rattle.gcl_core.specs.meaning.Bounds.{IsWeight};
ghost use Rattle.gcl_core.specs.meaning.Draw.{last_end, bits_for, choice_ends};
ghost use Rattle.cost_law.specs.ExpectedBits.{attempt_bits};
ghost use Rattle.attempt_bits.specs.inner.Undecided.{undecided_at};

use draw_tree::bits_for;
use gcl_core::{Weight, draws};

// How many numbers stand in all stretches that have more than one class: of the 2^depth numbers from `first` on, their halves,
// the halves of these, and so on.
fn undecided(depth: u32, ends: &[u64], first: u64) -> u128
    requires depth { depth ≤ 63 }
    requires fits { first + 2 ^ depth ≤ 2 ^ 63 }
    ensures value { result ≡ undecided_at ends.now depth first }
    ensures most { result ≤ depth * 2 ^ depth }
{
    if depth == 0 {
        return 0;
    }
    match draws::common_class(ends, first, 1 << depth) {
        Some(_) => 0,
        None => {
            let half = 1 << (depth - 1);
            let left = undecided(depth - 1, ends, first);
            let right = undecided(depth - 1, ends, first + half);
            2 * u128::from(half) + left + right
        }
    }
}

/// The bits that one attempt of a choice reads on average, times 2^k for numbers of k bits: the first number of `attempt_bits`,
/// whose second number is 2^k. It is at most k * 2^k.
pub fn choice_bits(p: Weight) -> u128
    requires { IsWeight p }
    ensures value { result ≡ (attempt_bits (choice_ends p)).0 }
    ensures most { result ≤ bits_for p.den * 2 ^ bits_for p.den }
{
    let ends = [p.num, p.den];
    arms_bits(&ends)
}

/// The bits that one attempt of a draw with these ends reads on average, times 2^k for numbers of k bits: the first number of
/// `attempt_bits`, whose second number is 2^k. It is at most k * 2^k. A choice among several arms draws with the partial sums of
/// its parts as ends. It takes no memory.
pub fn arms_bits(ends: &[u64]) -> u128
    requires { last_end ends.now ≤ GREATEST_DENOMINATOR }
    ensures value { result ≡ (attempt_bits ends.now).0 }
    ensures most { result ≤ bits_for (last_end ends.now) * 2 ^ bits_for (last_end ends.now) }
{
    undecided(bits_for(draws::last_end(ends)), ends, 0)
}
