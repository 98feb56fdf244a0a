//! A draw by weights over a source of bits.
ghost use Rattle.std.specs.Prelude.{◌≡◌, ◌<◌, ◌≤◌, [], length, refl, IfOk, IsTrue};
ghost use Rattle.std.specs.List.{sum};
ghost use Rattle.zar_io.specs.Bits.{broken_after};
ghost use Rattle.zar_io.specs.GoesOn.{GoesOn};
ghost use Rattle.zar_io.specs.Trace.{World, Agrees, Fails};
ghost use Rattle.dice_roll.specs.Rolled.{TookEach, IsWithin, ended_by};
ghost use Rattle.dice_roll.specs.declared.rules.TheConstants as dice_rule;
ghost use Rattle.weighted_roll.specs.declared.rules.TheConstants as rule;
ghost use Rattle.weighted_roll.specs.Weights.{AreWeights};
ghost use Rattle.weighted_roll.specs.WeightedRoll.{weighted_from, weighted_roll};
ghost use Rattle.weighted_roll.specs.inner.Walks.{StandsAmong};

use crate::columns::{Column, pass_labels};
use crate::weights::weights_are_small;
use dice_roll::{Flips, Roll, roll_on};
use zar_io::{Bits, Failed};

// What is left of the strings of each label, and the number of the string so far among those as long that have no label.
#[derive(Drop)]
struct Remainders<'a> {
    rests: &'a mut [u64],
    whole: u64,
    number: u64,
}

impl Flips for Remainders<'_> {
    ghost rolls = { λ s h n w. weighted_from s.whole h s.rests.now s.number n w };

    ghost labels = { λ s. length s.rests.now };

    ghost Stands = { λ s n. StandsAmong s.whole s.rests.now s.number };

    ghost no_flip_left = { λ s n bits. refl };

    ghost no_bit_left = { λ s h n. refl };

    fn flip(&mut self, _read: u64, bit: bool) -> Option<u64> {
        match pass_labels(self.rests, self.whole, 2 * self.number + u64::from(bit)) {
            Column::Leaf(label) => Some(label),
            Column::Rest(left) => {
                self.number = left;
                None
            }
        }
    }
}

// The sum, where it is known to be small.
pub(crate) fn sum_of(weights: &[u64]) -> u64
    requires { sum weights.now ≤ rule.GREATEST_SUM }
    ensures { result ≡ sum weights.now }
{
    weights.iter().sum()
}

/// Draws a label i with the chance `weights[i]` in the sum of all, by fair bits, of which it reads at most `flips`. It takes no
/// memory: `rests` lends room for a number a label.
///
/// Where it answers `Ok`, just the bits that the answer counts are taken, each of them needed. `MoreBits` comes where a bit was
/// needed and there was none, `Limit` where `flips` bits gave no label. `Failed` comes only where a read of the bits failed.
#[tactic(auto, using(zar_io::proofs::TraceLemmas::gone_on))]
pub fn roll<B: Bits>(
    weights: &[u64],
    rests: &mut [u64],
    flips: u64,
    bits: &mut B,
) -> Result<Roll, Failed>
    requires room { length rests.old ≡ length weights.now }
    requires weights { AreWeights weights.now }
    requires few { flips ≤ dice_rule.MOST_FLIPS }
    ensures answer { IfOk result (λ r. (file : World) → Agrees file (B.answered bits.new)
        → weighted_roll weights.now flips (B.left bits.old file) ≡ r) }
    ensures taken { IfOk result (λ r. (file : World) → Agrees file (B.answered bits.new)
        → TookEach (weighted_roll weights.now flips) r (B.left bits.old file) (B.left bits.new file)) }
    ensures within { IfOk result (IsWithin (length weights.now) flips) }
    ensures ended { B.ended bits.new ≡ ended_by result (B.ended bits.old) }
    ensures stays_ended { IsTrue (B.ended bits.old) → 0 < flips → result ≡ Ok (Roll.MoreBits 0) }
    ensures fails { Fails result (B.answered bits.old) (B.answered bits.new) }
    ensures goes_on { GoesOn [] (B.answered bits.old) (B.answered bits.new) }
    ensures broken { B.broken bits.new ≡ broken_after result (B.broken bits.old) }
    ensures same_source { B.source bits.new ≡ B.source bits.old }
    ensures same_room { length rests.new ≡ length rests.old }
{
    weights_are_small(weights);
    let whole = sum_of(weights);
    rests.copy_from_slice(weights);
    let mut remainders = Remainders {
        rests,
        whole,
        number: 0,
    };
    roll_on(&mut remainders, flips, bits)
}
