// The lines of a program's runs.

ghost use Rattle.std.specs.Prelude.{◌≡◌, ◌++◌, Bool, List, All, length, is_err, IfOk, OnErr};
ghost use Rattle.gcl_core.specs.declared.answers.Answer.{Answer};
ghost use Rattle.gcl_core.specs.meaning.LimitRange.{InRange};
ghost use Rattle.gcl_core.specs.meaning.Runs.{run_on};
ghost use Rattle.gcl_core.specs.meaning.Views.{source_of};
ghost use Rattle.sampler_run.specs.Held.{IsRestOf, set_back};
ghost use Rattle.stream_lines.specs.Lines.{lines_of_range};
ghost use Rattle.stream_lines.specs.inner.Rounds.{IsWorkerOf};
ghost use Rattle.stream_runs.specs.Jobs.{IsReadyJob};
ghost use Rattle.stream_runs.specs.Ranges.{IsRange, IsWorkers};
ghost use Rattle.zar_io.specs.Written.{IsWritten};

use crate::filling::workers_of;
use crate::worker::Worker;
use crate::writing::write_lines;
use gcl_core::{Checked, Limits};
use sampler_run::{Run, compile};
use std::alloc::{AllocError, Global};
use std::thread::Threads;
use stream_runs::{Job, SeedRange};
use zar_io::{Failed, Gate, Sink, put};

// Writes the front, and behind it the lines of the streams of a range. It takes no memory.
fn write_behind<'s, R: Threads + Sync, S: Sink, G: Gate>(
    rt: &R,
    sink: &mut S,
    front: &[u8],
    job: &Job<'_, G>,
    home: &Run<'s>,
    workers: &mut [Worker<'s>],
) -> Result<(), Failed>
    requires job { IsReadyJob job.now.limits.now job.now.range.now }
    requires workers { All (IsWorkerOf home.now) workers.old }
    requires count { IsWorkers (length workers.old) }
    ensures { (run : List Bool → Answer) → IsRestOf (set_back home.now) run
        → IsWritten (is_err result) (S.answered sink.old) (S.answered sink.new) (front.now ++ lines_of_range run job.now.range.now) }
{
    put(sink, front)?;
    write_lines(rt, sink, job, home, workers)
}

/// Writes the front, and behind it the lines of a program's runs on the streams of a range, in the order of the streams: for each
/// the line of its answer. The bytes are the same for any number of threads and any gate, which is told of each block of
/// [`stream_runs::STREAMS_OF_A_BLOCK`] streams before its first.
///
/// All memory is taken before the first byte is written, and it does not grow with the range; an error comes only where it runs
/// out, and nothing is written then. The first write that fails ends it: a part of what was to be written, from its begin on, and
/// not all, was appended then.
pub fn write_runs<R: Threads + Sync, S: Sink, G: Gate>(
    rt: &R,
    alloc: Global,
    sink: &mut S,
    front: &[u8],
    program: &Checked,
    range: &SeedRange,
    limits: &Limits,
    gate: &G,
) -> Result<Result<(), Failed>, AllocError>
    requires limits { InRange limits.now }
    requires range { IsRange range.now }
    requires workers { IsWorkers range.now.workers }
    ensures written { IfOk result (λ done. IsWritten (is_err done) (S.answered sink.old) (S.answered sink.new)
        (front.now ++ lines_of_range (run_on (source_of program.now) limits.now) range.now)) }
    ensures untouched { OnErr result (sink.new ≡ sink.old) }
{
    let sampler = compile(alloc, program)?;
    let home = sampler.start(alloc, limits)?;
    let mut workers = workers_of(alloc, &home, range.workers)?;
    let job = Job {
        sampler: &sampler,
        limits,
        range,
        gate,
    };
    Ok(write_behind(rt, sink, front, &job, &home, workers.as_mut_slice()))
}
