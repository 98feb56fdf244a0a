// The lines of batches.

ghost use Rattle.std.specs.Prelude.{◌≡◌, ◌+◌, ◌-◌, ◌*◌, ◌<◌, ◌≤◌, ◌++◌, Bool, List, All, IfOk, length};
ghost use Rattle.gcl_core.specs.declared.answers.Answer.{Answer};
ghost use Rattle.sampler_run.specs.Held.{IsRestOf, set_back};
ghost use Rattle.stream_lines.specs.Lines.{lines_over};
ghost use Rattle.stream_lines.specs.inner.Rounds.{batch_start, IsWorkerOf, told_by, HasBatch, HaveRound};
ghost use Rattle.stream_lines.specs.inner.Begun.{block_at, blocks_begun};
ghost use Rattle.stream_lines.specs.declared.batch.TheConstants.{STREAMS_OF_A_BATCH};
ghost use Rattle.stream_runs.specs.declared.range.TheConstants.{MOST_WORKERS};
ghost use Rattle.stream_runs.specs.Homes.{IsHome};
ghost use Rattle.stream_runs.specs.Jobs.{IsReadyJob};
ghost use Rattle.zar_io.specs.Visits.{blocks_told};

use crate::batch::{Batch, STREAMS_OF_A_BATCH};
use crate::worker::Worker;
use report_text::Line;
use sampler_run::Run;
use std::alloc::{AllocError, Global};
use std::thread::{Threads, for_each_mut};
use stream_runs::{Job, MOST_WORKERS, STREAMS_OF_A_BLOCK, answer_on_stream};
use zar_io::{Gate, StreamBits, Visits};

// A worker that begins as `home` does. An error comes only where memory runs out.
fn worker_of<'s>(alloc: Global, home: &Run<'s>) -> Result<Worker<'s>, AllocError>
    requires { IsHome home.now home.now }
    ensures { IfOk result (IsWorkerOf home.now) }
{
    Ok(Worker {
        state: home.fork(alloc)?,
        batch: Batch::new(alloc)?,
        visits: Visits::new(),
        apart: [0; 16],
    })
}

// Workers that all begin as `home` does. An error comes only where memory runs out.
pub(crate) fn workers_of<'s>(
    alloc: Global,
    home: &Run<'s>,
    count: u32,
) -> Result<Vec<Worker<'s>>, AllocError>
    requires { IsHome home.now home.now }
    ensures workers { IfOk result (λ workers. All (IsWorkerOf home.now) workers.items) }
    ensures count { IfOk result (λ workers. length workers.items ≡ count) }
{
    let mut workers = Vec::with_capacity(alloc, count as usize)?;
    let mut made = 0;
    while made < count {
        workers.push(worker_of(alloc, home)?)?;
        made += 1;
    }
    Ok(workers)
}

// Tells the gate of the block that begins with this stream, if one does.
#[inline]
fn enter<G: Gate>(job: &Job<'_, G>, visits: &mut Visits, stream: u64)
    requires { job.now.range.now.from ≤ stream }
    ensures { blocks_told visits.new ≡ blocks_told visits.old ++ block_at job.now.range.now.from stream }
{
    let before = stream - job.range.from;
    if before % STREAMS_OF_A_BLOCK == 0 {
        visits.enter(job.gate, before / STREAMS_OF_A_BLOCK);
    }
}

// Runs on some streams that follow one another, and keeps their lines in the batch, in the place of what it held. The gate is told
// of each block before its first stream.
fn fill<'s, G: Gate>(
    job: &Job<'_, G>,
    home: &Run<'s>,
    first: u64,
    end: u64,
    state: &mut Run<'s>,
    batch: &mut Batch,
    visits: &mut Visits,
)
    requires job { IsReadyJob job.now.limits.now job.now.range.now }
    requires home { IsHome home.now state.old }
    requires from { job.now.range.now.from ≤ first }
    requires order { first ≤ end }
    requires few { end - first ≤ STREAMS_OF_A_BATCH }
    ensures lines { (run : List Bool → Answer) → IsRestOf (set_back state.old) run →
        batch.new ≡ lines_over run job.now.range.now.seed job.now.range.now.budget first end }
    ensures entered { blocks_told visits.new ≡ blocks_told visits.old ++ blocks_begun job.now.range.now.from first end }
    ensures same_start { set_back state.new ≡ set_back state.old }
{
    batch.clear();
    let mut bits = StreamBits::new(job.range.seed, first, job.range.budget);
    let mut line = Line::new();
    let mut at = first;
    while at < end {
        enter(job, visits, at);
        let answer = answer_on_stream(state, home, &mut bits, job.range.seed, at, job.range.budget);
        line.set_sample(&answer);
        batch.push(line.bytes());
        at += 1;
    }
}

// Where a batch of a round begins that has batches of this many streams.
pub(crate) fn batch_start(first: u64, to: u64, size: u64, number: u64) -> u64
    requires order { first ≤ to }
    requires size { size ≤ STREAMS_OF_A_BATCH }
    requires few { number ≤ MOST_WORKERS }
    ensures { result ≡ batch_start first to size number }
{
    first + (to - first).min(number * size)
}

// The lines of the batch of this number.
fn fill_batch<'s, G: Gate>(
    job: &Job<'_, G>,
    home: &Run<'s>,
    first: u64,
    size: u64,
    number: usize,
    worker: &mut Worker<'s>,
)
    requires job { IsReadyJob job.now.limits.now job.now.range.now }
    requires worker { IsWorkerOf home.now worker.old }
    requires from { job.now.range.now.from ≤ first }
    requires order { first ≤ job.now.range.now.to }
    requires size { size ≤ STREAMS_OF_A_BATCH }
    requires number { number < MOST_WORKERS }
    ensures { HasBatch home.now job.now.range.now first size number (told_by worker.old) worker.new }
{
    let to = job.range.to;
    let start = batch_start(first, to, size, number as u64);
    let end = batch_start(first, to, size, number as u64 + 1);
    fill(
        job,
        home,
        start,
        end,
        &mut worker.state,
        &mut worker.batch,
        &mut worker.visits,
    );
}

// The lines of a round that begins with this stream, a batch of this many streams for each worker, one behind the other. Each worker
// works in a thread of its own, where one can be made. The gate is told of each block before its first stream.
pub(crate) fn fill_round<'s, R: Threads + Sync, G: Gate>(
    rt: &R,
    job: &Job<'_, G>,
    home: &Run<'s>,
    first: u64,
    size: u64,
    workers: &mut [Worker<'s>],
)
    requires job { IsReadyJob job.now.limits.now job.now.range.now }
    requires workers { All (IsWorkerOf home.now) workers.old }
    requires count { length workers.old ≤ MOST_WORKERS }
    requires from { job.now.range.now.from ≤ first }
    requires order { first ≤ job.now.range.now.to }
    requires size { size ≤ STREAMS_OF_A_BATCH }
    ensures { HaveRound home.now job.now.range.now first size workers.old workers.new }
{
    for_each_mut(
        rt,
        workers,
        MOST_WORKERS as usize,
        &|number, w: &mut Worker<'_>|
            requires { IsReadyJob job.now.limits.now job.now.range.now × IsWorkerOf home.now w.now
                × (job.now.range.now.from ≤ first) × (first ≤ job.now.range.now.to)
                × (size ≤ STREAMS_OF_A_BATCH) × (number < MOST_WORKERS) }
            ensures { HasBatch home.entry.now job.entry.now.range.now first size number (told_by w.entry.now) w.exit.now }
        { fill_batch(job, home, first, size, number, w) },
    );
}
