// Rolls, and what their labels weigh.

ghost use Rattle.std.specs.Prelude.{◌≡◌, ◌≤◌, [], ◌∷◌, IfErr, IfOk};
ghost use Rattle.dice_roll.specs.FastRoll.{fast_roll};
ghost use Rattle.dice_roll.specs.declared.rules.TheConstants.{LEAST_LABELS, MOST_LABELS, MOST_FLIPS};
ghost use Rattle.zar_cli.specs.inner.Readings.{GivesOnBits};
ghost use Rattle.zar_cli.specs.Rolls.{shares_text, weights_text};
ghost use Rattle.zar_cli.specs.inner.Stage.{IsStage, OfOutside};
ghost use Rattle.zar_cli.specs.Stages.{refusal_in};
ghost use Rattle.zar_io.specs.declared.stream_bits.TheConstants.{MOST_BUDGET};
ghost use Rattle.zar_io.specs.StreamBits.{stream_bits};
ghost use Rattle.zar_io.specs.Trace.{World, Agrees};

use crate::source::open_bits;
use dice_roll::{Roll, roll, share};
use gcl_print::Text;
use numbers::Frac;
use report_text::{Decimals, Refusal, each_line, flips_line};
use std::alloc::{AllocError, Global};
use zar_io::{Failed, FileBits, Files, StreamBits};

/// A roll on the bits of the file of this name.
pub fn roll_on_file<F: Files>(
    files: &mut F,
    labels: u64,
    flips: u64,
    name: &str,
) -> Result<Roll, Refusal>
    requires low { LEAST_LABELS ≤ labels }
    requires high { labels ≤ MOST_LABELS }
    requires few { flips ≤ MOST_FLIPS }
    ensures answer { (file : World) → Agrees file (F.answered files.new)
        → GivesOnBits (fast_roll labels flips) (file name.now) result }
    ensures refused { IfErr result OfOutside }
    ensures stage { IsStage
        (name.now ∷ []) (F.answered files.old) (F.answered files.new) (refusal_in result) }
{
    open_bits(files, name)?;
    let mut bits = FileBits::new(files);
    match roll(labels, flips, &mut bits) {
        Ok(rolled) => Ok(rolled),
        Err(Failed) => Err(Refusal::Read),
    }
}

/// A roll on the first bits of a stream.
pub fn roll_on_stream(labels: u64, flips: u64, seed: u64, stream: u64, budget: u64) -> Roll
    requires low { LEAST_LABELS ≤ labels }
    requires high { labels ≤ MOST_LABELS }
    requires few { flips ≤ MOST_FLIPS }
    requires budget { budget ≤ MOST_BUDGET }
    ensures { result ≡ fast_roll labels flips (stream_bits seed stream budget) }
{
    let mut bits = StreamBits::new(seed, stream, budget);
    match roll(labels, flips, &mut bits) {
        Ok(rolled) => rolled,
        Err(Failed) => unreachable!(),
    }
}

// The lines of the weight of each label and of the weight left, each where it is above 0.
fn shares_text(
    alloc: Global,
    each: &Frac,
    left: &Frac,
    decimals: Decimals,
) -> Result<Text, AllocError>
    ensures { IfOk result (λ text. text ≡ shares_text decimals each.now left.now) }
{
    let mut text = Text::new(alloc);
    if each.num() > 0 {
        text.push(each_line(each, decimals).bytes())?;
    }
    if left.num() > 0 {
        text.push(flips_line(left, decimals).bytes())?;
    }
    Ok(text)
}

/// What the labels of a roll weigh, as lines, where the fractions are not too wide. An error comes only where memory runs out.
pub fn weights_text(
    alloc: Global,
    labels: u64,
    flips: u64,
    decimals: Decimals,
) -> Result<Option<Text>, AllocError>
    requires low { LEAST_LABELS ≤ labels }
    requires high { labels ≤ MOST_LABELS }
    requires few { flips ≤ MOST_FLIPS }
    ensures { IfOk result (λ text. text ≡ weights_text labels flips decimals) }
{
    match share(labels, flips) {
        Some((each, left)) => Ok(Some(shares_text(alloc, &each, &left, decimals)?)),
        None => Ok(None),
    }
}
