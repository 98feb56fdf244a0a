// Rolls by weights, and what their labels weigh.

ghost use Rattle.std.specs.Prelude.{◌≡◌, ◌≤◌, ◌++◌, [], ◌∷◌, IfErr, IfOk};
ghost use Rattle.dice_roll.specs.declared.rules.TheConstants.{MOST_FLIPS};
ghost use Rattle.weighted_roll.specs.Weights.{AreWeights};
ghost use Rattle.weighted_roll.specs.WeightedRoll.{weighted_roll};
ghost use Rattle.zar_cli.specs.inner.Readings.{GivesOnBits};
ghost use Rattle.zar_cli.specs.WeightedRolls.{label_lines, shares_text, labels_text};
ghost use Rattle.zar_cli.specs.inner.Stage.{IsStage, OfOutside};
ghost use Rattle.zar_cli.specs.Stages.{refusal_in};
ghost use Rattle.zar_io.specs.declared.stream_bits.TheConstants.{MOST_BUDGET};
ghost use Rattle.zar_io.specs.StreamBits.{stream_bits};
ghost use Rattle.zar_io.specs.Trace.{World, Agrees};

use crate::source::open_bits;
use dice_roll::Roll;
use gcl_core::Outcome;
use gcl_print::Text;
use numbers::Frac;
use report_text::{Decimals, Refusal, cost_line, flips_line, mass_line};
use std::alloc::{AllocError, Global};
use weighted_roll::{Shares, roll, weigh_labels};
use zar_io::{Failed, FileBits, Files, StreamBits};

/// A roll by weights on the bits of the file of this name.
pub fn weighted_on_file<F: Files>(
    alloc: Global,
    files: &mut F,
    weights: &[u64],
    flips: u64,
    name: &str,
) -> Result<Roll, Refusal>
    requires weights { AreWeights weights.now }
    requires few { flips ≤ MOST_FLIPS }
    ensures answer { (file : World) → Agrees file (F.answered files.new)
        → GivesOnBits (weighted_roll weights.now flips) (file name.now) result }
    ensures refused { IfErr result OfOutside }
    ensures stage { IsStage
        (name.now ∷ []) (F.answered files.old) (F.answered files.new) (refusal_in result) }
{
    open_bits(files, name)?;
    let mut room = weights.to_vec(alloc)?;
    let mut bits = FileBits::new(files);
    match roll(weights, room.as_mut_slice(), flips, &mut bits) {
        Ok(rolled) => Ok(rolled),
        Err(Failed) => Err(Refusal::Read),
    }
}

/// A roll by weights on the first bits of a stream. It takes memory for a number a label, and errs only where that runs out.
pub fn weighted_on_stream(
    alloc: Global,
    weights: &[u64],
    flips: u64,
    seed: u64,
    stream: u64,
    budget: u64,
) -> Result<Roll, AllocError>
    requires weights { AreWeights weights.now }
    requires few { flips ≤ MOST_FLIPS }
    requires budget { budget ≤ MOST_BUDGET }
    ensures { IfOk result (λ rolled. rolled ≡ weighted_roll weights.now flips (stream_bits seed stream budget)) }
{
    let mut room = weights.to_vec(alloc)?;
    let mut bits = StreamBits::new(seed, stream, budget);
    match roll(weights, room.as_mut_slice(), flips, &mut bits) {
        Ok(rolled) => Ok(rolled),
        Err(Failed) => unreachable!(),
    }
}

// The lines of the labels, each where its share is above 0.
fn label_lines(alloc: Global, shares: &[Frac], decimals: Decimals) -> Result<Text, AllocError>
    ensures { IfOk result (λ text. text ≡ label_lines decimals 0 shares.now) }
{
    let mut text = Text::new(alloc);
    for label in 0..shares.len() {
        let share = &shares[label];
        if share.num() > 0 {
            text.push(mass_line(&Outcome::Value(label as i64), share, decimals).bytes())?;
        }
    }
    Ok(text)
}

// The lines of the labels, of what is left where that is above 0, and of the expected flips.
fn shares_text(alloc: Global, shares: &Shares, decimals: Decimals) -> Result<Text, AllocError>
    ensures { IfOk result (λ text. text ≡ shares_text decimals (shares.now.labels.items, shares.now.left, shares.now.flips)) }
{
    let mut text = label_lines(alloc, shares.labels.as_slice(), decimals)?;
    if shares.left.num() > 0 {
        text.push(flips_line(&shares.left, decimals).bytes())?;
    }
    text.push(cost_line(&shares.flips, decimals).bytes())?;
    Ok(text)
}

/// What labels by these weights weigh, and how many flips a roll makes on average, as lines, where the fractions are not too wide.
/// An error comes only where memory runs out.
pub fn labels_text(
    alloc: Global,
    weights: &[u64],
    flips: u64,
    decimals: Decimals,
) -> Result<Option<Text>, AllocError>
    requires weights { AreWeights weights.now }
    ensures { IfOk result (λ text. text ≡ labels_text weights.now flips decimals) }
{
    match weigh_labels(alloc, weights, flips)? {
        Some(shares) => Ok(Some(shares_text(alloc, &shares, decimals)?)),
        None => Ok(None),
    }
}
