// Lines that are written as they come.

ghost use Rattle.std.specs.Prelude.{◌≡◌, ◌<◌, ◌≤◌, ◌++◌, ℕ, Bool, List, flat_map, length, take, All, OnOk, OnErr};
ghost use Rattle.gcl_core.specs.declared.answers.Answer.{Answer};
ghost use Rattle.sampler_run.specs.Held.{IsRestOf, set_back};
ghost use Rattle.stream_lines.specs.Lines.{lines_of_range};
ghost use Rattle.stream_lines.specs.inner.Rounds.{lines_in, IsWorkerOf};
ghost use Rattle.stream_runs.specs.Jobs.{IsReadyJob};
ghost use Rattle.stream_runs.specs.Ranges.{IsWorkers};
ghost use Rattle.zar_io.specs.Trace.{Fails, written};

use crate::batch::{STREAMS_OF_A_BATCH, STREAMS_OF_A_FIRST_BATCH};
use crate::filling::{batch_start, fill_round};
use crate::worker::Worker;
use sampler_run::Run;
use std::thread::Threads;
use stream_runs::Job;
use zar_io::{Failed, Gate, Sink, put};

// Writes the batches of the workers, one behind the other. The first write that fails ends it: a part of their front was appended
// then.
fn put_round<'s, S: Sink>(sink: &mut S, workers: &[Worker<'s>]) -> Result<(), Failed>
    ensures fails { Fails result (S.answered sink.old) (S.answered sink.new) }
    ensures whole { OnOk result (written (S.answered sink.new) ≡ written (S.answered sink.old) ++ flat_map lines_in workers.now) }
    ensures front { OnErr result ((n : ℕ) × (n < length (flat_map lines_in workers.now))
        × (written (S.answered sink.new) ≡ written (S.answered sink.old) ++ take n (flat_map lines_in workers.now))) }
{
    for worker in workers {
        put(sink, worker.batch.bytes())?;
    }
    Ok(())
}

// Writes the lines of the streams of a range, round by round: each worker makes the lines of a batch, and the batches are then
// written in their order. They are short at first, and twice as long in each further round. It takes no memory. The first write that
// fails ends it: a part of the front of the lines, and not all, was appended then.
pub(crate) fn write_lines<'s, R: Threads + Sync, S: Sink, G: Gate>(
    rt: &R,
    sink: &mut S,
    job: &Job<'_, G>,
    home: &Run<'s>,
    workers: &mut [Worker<'s>],
) -> Result<(), Failed>
    requires job { IsReadyJob job.now.limits.now job.now.range.now }
    requires workers { All (IsWorkerOf home.now) workers.old }
    requires count { IsWorkers (length workers.old) }
    ensures fails { Fails result (S.answered sink.old) (S.answered sink.new) }
    ensures whole { OnOk result ((run : List Bool → Answer) → IsRestOf (set_back home.now) run
        → written (S.answered sink.new) ≡ written (S.answered sink.old) ++ lines_of_range run job.now.range.now) }
    ensures front { OnErr result ((run : List Bool → Answer) → IsRestOf (set_back home.now) run
        → (n : ℕ) × (n < length (lines_of_range run job.now.range.now))
        × (written (S.answered sink.new) ≡ written (S.answered sink.old) ++ take n (lines_of_range run job.now.range.now))) }
{
    let to = job.range.to;
    let mut at = job.range.from;
    let mut size = STREAMS_OF_A_FIRST_BATCH;
    while at < to {
        let end = batch_start(at, to, size, workers.len() as u64);
        fill_round(rt, job, home, at, size, workers);
        put_round(sink, workers)?;
        at = end;
        size = (size * 2).min(STREAMS_OF_A_BATCH);
    }
    Ok(())
}
