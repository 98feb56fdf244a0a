// Tallies.

ghost use Rattle.std.specs.Prelude.{◌≡◌, Bool, List, true, All, IfOk};
ghost use Rattle.gcl_core.specs.declared.answers.Answer.{Answer};
ghost use Rattle.gcl_core.specs.declared.answers.Limits.{Limits};
ghost use Rattle.gcl_core.specs.declared.answers.TallyKey.{TallyKey};
ghost use Rattle.gcl_core.specs.meaning.LimitRange.{InRange};
ghost use Rattle.sampler_code.specs.Assembled.{CodeReaches, IsRunOf};
ghost use Rattle.sampler_code.specs.Running.{Reached};
ghost use Rattle.claim_board.specs.Board.{blocks_of, had_none, AreAllPasses, IsNew};
ghost use Rattle.stream_runs.specs.Blocks.{blocks_over};
ghost use Rattle.stream_runs.specs.Jobs.{IsReadyJob};
ghost use Rattle.stream_runs.specs.Ranges.{IsRange, IsWorkers};
ghost use Rattle.tally_range.specs.Counts.{count_range};
ghost use Rattle.tally_range.specs.Rows.{IsTallyOf};
ghost use Rattle.tally_range.specs.Sums.{count_in};
ghost use Rattle.tally_range.specs.inner.Worked.{HaveCounted};

use crate::sharing::{add_up, gather, share_out};
use crate::table::Tally;
use crate::working::run_workers;
use claim_board::{Board, Pass};
use gcl_core::Limits;
use sampler_run::Sampler;
use std::alloc::{AllocError, Global};
use std::thread::Threads;
use stream_runs::{Job, STREAMS_OF_A_BLOCK, SeedRange};
use zar_io::Gate;

// It does nothing: whatever bits come, a run of the sampler reaches an answer, as its code tells of itself.
fn runs_answer(s: &Sampler)
    ensures { (l : Limits) (w : List Bool) → InRange l → (a : Reached) × CodeReaches s.now l w a }
{
    s.code().vars();
}

// Runs a worker for each pass, in a thread of its own, and gives back the passes and the tables of the workers. An error comes
// only where memory runs out.
fn count_in_threads<R: Threads + Sync, G: Gate>(
    rt: &R,
    alloc: Global,
    board: &Board,
    passes: Vec<Pass>,
    job: &Job<'_, G>,
) -> Result<(Vec<Pass>, Vec<Tally>), AllocError>
    requires job { IsReadyJob job.now.limits.now job.now.range.now }
    requires blocks { blocks_of board.now ≡ blocks_over job.now.range.now.from job.now.range.now.to }
    requires passes { AreAllPasses board.now passes.items }
    requires new { All IsNew passes.items }
    ensures passes { IfOk result (λ r. AreAllPasses board.now r.0.items) }
    ensures ended { IfOk result (λ r. All (λ p. had_none p ≡ true) r.0.items) }
    ensures counts { IfOk result (λ r. HaveCounted job.now.sampler.now job.now.limits.now job.now.range.now r.0.items r.1.items) }
{
    let mut entries = share_out(alloc, passes)?;
    run_workers(rt, board, job, entries.as_mut_slice());
    let (passes, tables) = gather(alloc, entries)?;
    Ok((passes, tables))
}

/// How many of the streams of the range have runs of the sampler that end in each way: the outcomes, and the runs that need more
/// bits than the budget. The rows are the same for any number of threads and any gate. Streams go in blocks of
/// [`STREAMS_OF_A_BLOCK`], the last of which may be shorter, and the gate is told of each block before its first stream. An error
/// comes only where memory runs out.
pub fn tally<R: Threads + Sync, G: Gate>(
    rt: &R,
    alloc: Global,
    s: &Sampler,
    l: &Limits,
    range: &SeedRange,
    gate: &G,
) -> Result<Tally, AllocError>
    requires limits { InRange l.now }
    requires range { IsRange range.now }
    requires workers { IsWorkers range.now.workers }
    ensures rows { IfOk result
        (λ t. (run : List Bool → Answer) → IsRunOf s.now l.now run → IsTallyOf (count_range run range.now) t) }
    ensures counts { IfOk result (λ t. (run : List Bool → Answer) → IsRunOf s.now l.now run → (key : TallyKey)
        → count_in t key ≡ count_range run range.now key) }
{
    runs_answer(s);
    let job = Job {
        sampler: s,
        limits: l,
        range,
        gate,
    };
    let (board, passes) = Board::new(alloc, range.blocks(), range.workers)?;
    let (passes, tables) = count_in_threads(rt, alloc, &board, passes, &job)?;
    board.close(passes);
    add_up(alloc, &tables)
}
