// Draws into two slices.

ghost use Rattle.std.specs.Prelude.{◌≡◌, ◌+◌, ◌≤◌, ◌^◌, Bool, List, IfOk, OnErr, length};
ghost use Rattle.gcl_core.specs.declared.answers.Answer.{Answer};
ghost use Rattle.gcl_core.specs.meaning.LimitRange.{InRange};
ghost use Rattle.sampler_code.specs.Assembled.{IsRunOf};
ghost use Rattle.sampler_run.specs.Held.{IsRestOf, set_back};
ghost use Rattle.stream_runs.specs.Draws.{AreEnds};
ghost use Rattle.stream_runs.specs.Homes.{IsHome};
ghost use Rattle.zar_io.specs.declared.stream_bits.TheConstants.{MOST_BUDGET};

use crate::ends::{end_of, value_of};
use crate::running::answer_on_stream;
use gcl_core::Limits;
use sampler_run::{Run, Sampler};
use std::alloc::{AllocError, Global};
use zar_io::StreamBits;

/// The streams from `first` on of a seed, and how many bits of each a run may read.
#[derive(Clone, Copy)]
pub struct StreamsFrom {
    pub seed: u64,
    pub first: u64,
    pub budget: u64,
}

// Writes how the runs on the streams from `first` on end, one after the other. It takes no memory.
fn fill<'s>(
    state: &mut Run<'s>,
    home: &Run<'s>,
    streams: StreamsFrom,
    values: &mut [i64],
    ends: &mut [u8],
)
    requires home { IsHome home.now state.old }
    requires budget { streams.budget ≤ MOST_BUDGET }
    requires alike { length ends.old ≡ length values.old }
    requires fits { streams.first + length values.old ≤ 2 ^ 64 }
    ensures { (run : List Bool → Answer) → IsRestOf (set_back state.old) run →
        AreEnds run streams.seed streams.first streams.budget values.new ends.new }
{
    let mut bits = StreamBits::new(streams.seed, streams.first, streams.budget);
    for k in 0..values.len() {
        let answer = answer_on_stream(
            state,
            home,
            &mut bits,
            streams.seed,
            streams.first + k as u64,
            streams.budget,
        );
        values[k] = value_of(answer);
        ends[k] = end_of(answer);
    }
}

/// Writes how the runs of a sampler end: place k of both slices gets the end of the run on the stream `first` + k. The memory
/// is that of two runs, whatever the places. An error comes only where it runs out, before anything is written.
pub fn draws_into(
    alloc: Global,
    s: &Sampler,
    l: &Limits,
    streams: StreamsFrom,
    values: &mut [i64],
    ends: &mut [u8],
) -> Result<(), AllocError>
    requires limits { InRange l.now }
    requires budget { streams.budget ≤ MOST_BUDGET }
    requires alike { length ends.old ≡ length values.old }
    requires fits { streams.first + length values.old ≤ 2 ^ 64 }
    ensures drawn { IfOk result (λ _. (run : List Bool → Answer) → IsRunOf s.now l.now run →
        AreEnds run streams.seed streams.first streams.budget values.new ends.new) }
    ensures untouched { OnErr result ((values.new ≡ values.old) × (ends.new ≡ ends.old)) }
{
    let home = s.start(alloc, l)?;
    let mut state = home.fork(alloc)?;
    fill(&mut state, &home, streams, values, ends);
    Ok(())
}
