//! A draw by the Fast Dice Roller over a source of bits.
ghost use Rattle.std.specs.Prelude.{◌≡◌, ◌<◌, ◌≤◌, [], refl, IfOk, IsTrue};
ghost use Rattle.zar_io.specs.Bits.{broken_after};
ghost use Rattle.zar_io.specs.GoesOn.{GoesOn};
ghost use Rattle.zar_io.specs.Trace.{World, Agrees, Fails};
ghost use Rattle.dice_roll.specs.declared.rules.TheConstants as rule;
ghost use Rattle.dice_roll.specs.FastRoll.{fast_roll};
ghost use Rattle.dice_roll.specs.Fair.{IsFair};
ghost use Rattle.dice_roll.specs.Rolled.{TookEach, IsWithin, ended_by};
ghost use Rattle.dice_roll.specs.inner.Dice.{dice_from, StandsAmong};

use crate::answers::Roll;
use crate::flipping::roll_on;
use crate::flips::Flips;
use zar_io::{Bits, Failed};

// A number below `range`, each as likely: the strings of the bits so far that have no label, numbered.
#[derive(Drop)]
struct Dice {
    m: u64,
    range: u64,
    number: u64,
}

impl Flips for Dice {
    ghost rolls = { λ s. dice_from s.m s.range s.number };

    ghost labels = { λ s. s.m };

    ghost Stands = { λ s n. StandsAmong s.m s.range s.number };

    ghost no_flip_left = { λ s n bits. refl };

    ghost no_bit_left = { λ s h n. refl };

    fn flip(&mut self, _read: u64, bit: bool) -> Option<u64> {
        let range = 2 * self.range;
        let number = 2 * self.number + u64::from(bit);
        if range < self.m {
            self.range = range;
            self.number = number;
            return None;
        }
        if number < self.m {
            return Some(number);
        }
        self.range = range - self.m;
        self.number = number - self.m;
        None
    }
}

/// Draws one of `m` labels, each as likely, by fair bits, of which it reads at most `flips`: the Fast Dice Roller
/// (Lumbroso 2013). It takes no memory.
///
/// Where it answers `Ok`, just the bits that the answer counts are taken, each of them needed. `MoreBits` comes where a bit was
/// needed and there was none, `Limit` where `flips` bits gave no label. `Failed` comes only where a read of the bits
/// failed.
#[tactic(auto, using(crate::proofs::Fairness::fair, zar_io::proofs::TraceLemmas::gone_on))]
pub fn roll<B: Bits>(m: u64, flips: u64, bits: &mut B) -> Result<Roll, Failed>
    requires low { rule.LEAST_LABELS ≤ m }
    requires high { m ≤ rule.MOST_LABELS }
    requires few { flips ≤ rule.MOST_FLIPS }
    ensures answer { IfOk result (λ r. (file : World) → Agrees file (B.answered bits.new)
        → fast_roll m flips (B.left bits.old file) ≡ r) }
    ensures taken { IfOk result (λ r. (file : World) → Agrees file (B.answered bits.new)
        → TookEach (fast_roll m flips) r (B.left bits.old file) (B.left bits.new file)) }
    ensures within { IfOk result (IsWithin m flips) }
    ensures ended { B.ended bits.new ≡ ended_by result (B.ended bits.old) }
    ensures stays_ended { IsTrue (B.ended bits.old) → 0 < flips → result ≡ Ok (Roll.MoreBits 0) }
    ensures fails { Fails result (B.answered bits.old) (B.answered bits.new) }
    ensures goes_on { GoesOn [] (B.answered bits.old) (B.answered bits.new) }
    ensures broken { B.broken bits.new ≡ broken_after result (B.broken bits.old) }
    ensures same_source { B.source bits.new ≡ B.source bits.old }
    ensures law { IsFair m }
{
    let mut dice = Dice {
        m,
        range: 1,
        number: 0,
    };
    roll_on(&mut dice, flips, bits)
}
