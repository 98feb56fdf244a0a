// Rolls into two slices.

ghost use Rattle.std.specs.Prelude.{◌≡◌, ◌+◌, ◌≤◌, ◌^◌, IfOk, OnErr, length};
ghost use Rattle.dice_roll.specs.declared.rules.TheConstants.{MOST_FLIPS};
ghost use Rattle.stream_rolls.specs.Rolls.{AreRolled};
ghost use Rattle.weighted_roll.specs.Weights.{AreWeights};
ghost use Rattle.weighted_roll.specs.WeightedRoll.{weighted_roll};
ghost use Rattle.zar_io.specs.StreamBits.{stream_bits};
ghost use Rattle.zar_io.specs.declared.stream_bits.TheConstants.{MOST_BUDGET};

use crate::ends::{end_of, label_of};
use dice_roll::Roll;
use std::alloc::{AllocError, Global};
use stream_runs::StreamsFrom;
use weighted_roll::{Loaded, MOST_DEPTH};
use zar_io::{Failed, StreamBits};

// A roll on the first bits of a stream. It takes no memory.
fn roll_on_stream(
    loaded: &Loaded,
    room: &mut [u64],
    bits: &mut StreamBits,
    flips: u64,
    seed: u64,
    stream: u64,
    budget: u64,
) -> Roll
    requires long { length room.old ≡ length loaded.now }
    requires few { flips ≤ MOST_FLIPS }
    requires budget { budget ≤ MOST_BUDGET }
    ensures answer { result ≡ weighted_roll loaded.now flips (stream_bits seed stream budget) }
    ensures same_room { length room.new ≡ length room.old }
{
    bits.begin(seed, stream, budget);
    match loaded.roll(room, flips, bits) {
        Ok(rolled) => rolled,
        Err(Failed) => unreachable!(),
    }
}

// Writes what the rolls on the streams from `first` on give, one after the other. It takes no memory.
fn fill(
    loaded: &Loaded,
    room: &mut [u64],
    flips: u64,
    streams: StreamsFrom,
    labels: &mut [u64],
    ends: &mut [u8],
)
    requires long { length room.old ≡ length loaded.now }
    requires few { flips ≤ MOST_FLIPS }
    requires budget { streams.budget ≤ MOST_BUDGET }
    requires alike { length ends.old ≡ length labels.old }
    requires fits { streams.first + length labels.old ≤ 2 ^ 64 }
    ensures { AreRolled loaded.now flips streams.seed streams.first streams.budget labels.new ends.new }
{
    let mut bits = StreamBits::new(streams.seed, streams.first, streams.budget);
    for k in 0..labels.len() {
        let rolled = roll_on_stream(
            loaded,
            room,
            &mut bits,
            flips,
            streams.seed,
            streams.first + k as u64,
            streams.budget,
        );
        labels[k] = label_of(rolled);
        ends[k] = end_of(rolled);
    }
}

/// Writes what rolls by weights give, with at most `flips` flips each: place k of both slices gets the end of the roll on the
/// stream `first` + k. The weights are laid out once, for all of them. An error comes only where the memory for that runs out,
/// before anything is written.
pub fn rolls_into(
    alloc: Global,
    weights: &[u64],
    flips: u64,
    streams: StreamsFrom,
    labels: &mut [u64],
    ends: &mut [u8],
) -> Result<(), AllocError>
    requires weights { AreWeights weights.now }
    requires few { flips ≤ MOST_FLIPS }
    requires budget { streams.budget ≤ MOST_BUDGET }
    requires alike { length ends.old ≡ length labels.old }
    requires fits { streams.first + length labels.old ≤ 2 ^ 64 }
    ensures rolled { IfOk result (λ _.
        AreRolled weights.now flips streams.seed streams.first streams.budget labels.new ends.new) }
    ensures untouched { OnErr result ((labels.new ≡ labels.old) × (ends.new ≡ ends.old)) }
{
    let loaded = Loaded::new(alloc, weights, MOST_DEPTH)?;
    let mut room = weights.to_vec(alloc)?;
    fill(&loaded, room.as_mut_slice(), flips, streams, labels, ends);
    Ok(())
}
