// Draws of programs.

ghost use Rattle.std.specs.Prelude.{◌≡◌, ◌+◌, ◌≤◌, ◌^◌, IfOk, OnErr, length};
ghost use Rattle.gcl_core.specs.meaning.LimitRange.{InRange};
ghost use Rattle.gcl_core.specs.meaning.Views.{source_of};
ghost use Rattle.stream_runs.specs.Draws.{AreDrawn};
ghost use Rattle.zar_io.specs.declared.stream_bits.TheConstants.{MOST_BUDGET};

use crate::drawing::{StreamsFrom, draws_into};
use gcl_core::{Checked, Limits};
use sampler_run::compile;
use std::alloc::{AllocError, Global};

/// Writes how the runs of a program end: place k of both slices gets the end of the run on the stream `first` + k. An error
/// comes only where memory runs out, before anything is written.
pub fn draws_of(
    alloc: Global,
    program: &Checked,
    l: &Limits,
    streams: StreamsFrom,
    values: &mut [i64],
    ends: &mut [u8],
) -> Result<(), AllocError>
    requires limits { InRange l.now }
    requires budget { streams.budget ≤ MOST_BUDGET }
    requires alike { length ends.old ≡ length values.old }
    requires fits { streams.first + length values.old ≤ 2 ^ 64 }
    ensures drawn { IfOk result (λ _.
        AreDrawn (source_of program.now) l.now streams.seed streams.first streams.budget values.new ends.new) }
    ensures untouched { OnErr result ((values.new ≡ values.old) × (ends.new ≡ ends.old)) }
{
    let sampler = compile(alloc, program)?;
    draws_into(alloc, &sampler, l, streams, values, ends)
}
