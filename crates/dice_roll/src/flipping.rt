//! The flips of a roll by the bits of a source.
ghost use Rattle.std.specs.Prelude.{◌≡◌, ◌+◌, ◌-◌, ◌<◌, ◌≤◌, List, Bool, [], IfOk, IfSome, IfNone, IsTrue, Ok, None};
ghost use Rattle.zar_io.specs.Bits.{ended_after, broken_after};
ghost use Rattle.zar_io.specs.FileBits.{low_bits};
ghost use Rattle.zar_io.specs.GoesOn.{GoesOn};
ghost use Rattle.zar_io.specs.Trace.{World, Agrees, Fails};
ghost use Rattle.dice_roll.specs.declared.rules.TheConstants as rule;
ghost use Rattle.dice_roll.specs.Rolled.{TookEach, IsWithin, ended_by};
ghost use Rattle.dice_roll.specs.inner.Flipped.{FlippedOn, FlippedOrNone};

use crate::answers::Roll;
use crate::flips::Flips;
use zar_io::{Bits, Failed, Ready};

// Flips by these bits, to a label, or to the last of the bits or the limit. It answers the label, and how many flips were made then.
fn flip_word<F: Flips>(under_way: &mut F, read: u64, flips: u64, ready: Ready) -> (Option<u64>, u64)
    requires stands { F.Stands under_way.old read }
    requires more { read < flips }
    requires few { flips ≤ rule.MOST_FLIPS }
    requires some { 0 < ready.count }
    requires word { ready.count ≤ 64 }
    ensures flipped { (left : List Bool)
        × FlippedOn F.rolls flips under_way.old under_way.new read result.1 result.0 (low_bits ready.count ready.word) left }
    ensures within { IfSome result.0 (λ label. label < F.labels under_way.old) }
    ensures stands { IfNone result.0 (F.Stands under_way.new result.1) }
    ensures same_labels { F.labels under_way.new ≡ F.labels under_way.old }
    ensures some { read < result.1 }
    ensures few { result.1 ≤ flips }
    ensures ready { result.1 - read ≤ ready.count }
{
    let past = read + u64::from(ready.count);
    let end = flips.min(past);
    for made in read..end {
        let bit = (ready.word >> (past - made - 1)) % 2 == 1;
        if let Some(label) = under_way.flip(made, bit) {
            return (Some(label), made + 1);
        }
    }
    (None, end)
}

// Flips by the bits that lie ready, or by the next where none does, as `flip_word`. `None` comes where there is none.
#[tactic(auto, using(zar_io::proofs::TraceLemmas::gone_on))]
fn flip_on<F: Flips, B: Bits>(
    under_way: &mut F,
    read: u64,
    flips: u64,
    bits: &mut B,
) -> Result<Option<(Option<u64>, u64)>, Failed>
    requires stands { F.Stands under_way.old read }
    requires more { read < flips }
    requires few { flips ≤ rule.MOST_FLIPS }
    ensures flipped { IfOk result (λ made. (file : World) → Agrees file (B.answered bits.new)
        → FlippedOrNone F.rolls flips under_way.old under_way.new read made (B.left bits.old file) (B.left bits.new file)) }
    ensures within { IfOk result (λ made. IfSome made (λ p. IfSome p.0 (λ label. label < F.labels under_way.old))) }
    ensures stands { IfOk result (λ made. IfSome made (λ p. IfNone p.0 (F.Stands under_way.new p.1))) }
    ensures counted { IfOk result (λ made. IfSome made (λ p. (read < p.1) × (p.1 ≤ flips))) }
    ensures same_labels { F.labels under_way.new ≡ F.labels under_way.old }
    ensures fails { Fails result (B.answered bits.old) (B.answered bits.new) }
    ensures goes_on { GoesOn [] (B.answered bits.old) (B.answered bits.new) }
    ensures ended { B.ended bits.new ≡ ended_after result (B.ended bits.old) }
    ensures stays_ended { IsTrue (B.ended bits.old) → result ≡ Ok None }
    ensures broken { B.broken bits.new ≡ broken_after result (B.broken bits.old) }
    ensures same_source { B.source bits.new ≡ B.source bits.old }
{
    let ready = bits.peek();
    if ready.count > 0 {
        let (label, after) = flip_word(under_way, read, flips, ready);
        bits.take((after - read) as u32);
        return Ok(Some((label, after)));
    }
    match bits.next()? {
        None => Ok(None),
        Some(bit) => Ok(Some((under_way.flip(read, bit), read + 1))),
    }
}

/// Rolls from where a roll stands, by fair bits, of which it reads at most `flips`.
///
/// Where it answers `Ok`, just the bits that the answer counts are taken, each of them needed. `MoreBits` comes where a bit was
/// needed and there was none, `Limit` where `flips` bits gave no label. `Failed` comes only where a read of the bits failed.
#[tactic(auto, using(zar_io::proofs::TraceLemmas::gone_on))]
pub fn roll_on<F: Flips, B: Bits>(
    under_way: &mut F,
    flips: u64,
    bits: &mut B,
) -> Result<Roll, Failed>
    requires stands { F.Stands under_way.old 0 }
    requires few { flips ≤ rule.MOST_FLIPS }
    ensures answer { IfOk result (λ r. (file : World) → Agrees file (B.answered bits.new)
        → F.rolls under_way.old flips 0 (B.left bits.old file) ≡ r) }
    ensures taken { IfOk result (λ r. (file : World) → Agrees file (B.answered bits.new)
        → TookEach (F.rolls under_way.old flips 0) r (B.left bits.old file) (B.left bits.new file)) }
    ensures within { IfOk result (IsWithin (F.labels under_way.old) flips) }
    ensures ended { B.ended bits.new ≡ ended_by result (B.ended bits.old) }
    ensures stays_ended { IsTrue (B.ended bits.old) → 0 < flips → result ≡ Ok (Roll.MoreBits 0) }
    ensures fails { Fails result (B.answered bits.old) (B.answered bits.new) }
    ensures goes_on { GoesOn [] (B.answered bits.old) (B.answered bits.new) }
    ensures broken { B.broken bits.new ≡ broken_after result (B.broken bits.old) }
    ensures same_source { B.source bits.new ≡ B.source bits.old }
{
    let mut read: u64 = 0;
    while read < flips {
        match flip_on(under_way, read, flips, bits)? {
            None => return Ok(Roll::MoreBits(read)),
            Some((Some(label), after)) => return Ok(Roll::Label(label, after)),
            Some((None, after)) => read = after,
        }
    }
    Ok(Roll::Limit(flips))
}
