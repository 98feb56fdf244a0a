// Runs in a row, written into two slices.

ghost use Rattle.std.specs.Prelude.{◌≡◌, ◌≤◌, IfOk, IsErrOf, OnErr, length};
ghost use Rattle.bit_runs.specs.Rows.{AreInARow};
ghost use Rattle.gcl_core.specs.meaning.LimitRange.{InRange};
ghost use Rattle.gcl_core.specs.meaning.Views.{source_of};
ghost use Rattle.sampler_run.specs.Sampled.{RunFails};
ghost use Rattle.stream_runs.specs.Ends.{end_of, value_of};
ghost use Rattle.zar_io.specs.StreamBits.{stream_bits};
ghost use Rattle.zar_io.specs.Trace.{World, Agrees};
ghost use Rattle.zar_io.specs.declared.stream_bits.TheConstants.{MOST_BUDGET};

use crate::running::used;
use gcl_core::{Checked, Limits};
use sampler_run::{RunError, compile, go_on, runs_leave_the_rest};
use std::alloc::{AllocError, Global};
use stream_runs::{end_of, value_of};
use zar_io::{Bits, StreamBits};

/// Writes how runs in a row end: place k of both slices gets the end of the run on the bits that the k runs before it left. It
/// answers how many bits they read together, at most 2^64 - 1. A run that needs more than are left leaves none. One sampler and one
/// state serve all runs, so a run takes no memory. `Read` comes only where a read of the bits failed, and `OutOfMemory` before
/// anything is written.
pub fn draws_in_a_row<B: Bits>(
    alloc: Global,
    program: &Checked,
    l: &Limits,
    bits: &mut B,
    values: &mut [i64],
    ends: &mut [u8],
) -> Result<u64, RunError>
    requires limits { InRange l.now }
    requires alike { length ends.old ≡ length values.old }
    ensures row { IfOk result (λ read. (file : World) → Agrees file (B.answered bits.new)
        → AreInARow (source_of program.now) l.now (B.left bits.old file) values.new ends.new read) }
    ensures fails { RunFails result (B.answered bits.old) (B.answered bits.new) }
    ensures untouched { IsErrOf result RunError.OutOfMemory → (values.new ≡ values.old) × (ends.new ≡ ends.old) }
{
    runs_leave_the_rest();
    let sampler = compile(alloc, program)?;
    let mut state = sampler.start(alloc, l)?;
    let mut read = 0u64;
    for k in 0..values.len() {
        let stop = go_on(&mut state, bits)?;
        values[k] = value_of(stop.answer);
        ends[k] = end_of(stop.answer);
        read = read.saturating_add(used(stop.answer));
        state.restart();
    }
    Ok(read)
}

/// A stream of a seed, and how many of its bits all runs together may read.
#[derive(Clone, Copy)]
pub struct OneStream {
    pub seed: u64,
    pub stream: u64,
    pub budget: u64,
}

/// Writes how runs in a row on the first bits of a stream end, as [`draws_in_a_row`] does. An error comes only where memory runs out,
/// before anything is written.
pub fn draws_on_stream(
    alloc: Global,
    program: &Checked,
    l: &Limits,
    from: OneStream,
    values: &mut [i64],
    ends: &mut [u8],
) -> Result<u64, AllocError>
    requires limits { InRange l.now }
    requires budget { from.budget ≤ MOST_BUDGET }
    requires alike { length ends.old ≡ length values.old }
    ensures row { IfOk result
        (AreInARow (source_of program.now) l.now (stream_bits from.seed from.stream from.budget) values.new ends.new) }
    ensures untouched { OnErr result ((values.new ≡ values.old) × (ends.new ≡ ends.old)) }
{
    let mut bits = StreamBits::new(from.seed, from.stream, from.budget);
    match draws_in_a_row(alloc, program, l, &mut bits, values, ends) {
        Ok(read) => Ok(read),
        Err(RunError::OutOfMemory) => Err(AllocError),
        Err(RunError::Read) => unreachable!(),
    }
}
