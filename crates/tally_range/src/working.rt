// The workers.

ghost use Rattle.std.specs.Prelude.{◌≡◌, ◌++◌, All, OnOk};
ghost use Rattle.std.specs.List.{AllZip};
ghost use Rattle.gcl_core.specs.meaning.LimitRange.{InRange};
ghost use Rattle.claim_board.specs.Board.{dealt_to, IsPassOf, IsSamePass};
ghost use Rattle.stream_runs.specs.Jobs.{IsReadyJob};
ghost use Rattle.stream_runs.specs.Ranges.{IsRange};
ghost use Rattle.tally_range.specs.Shares.{IsReady, IsCounted, pass_of, told_by};
ghost use Rattle.tally_range.specs.inner.Worked.{IsWorked};

use crate::share::{Entry, Share};
use crate::small_counts::SmallCounts;
use crate::streams::count_block;
use claim_board::Board;
use gcl_core::Limits;
use sampler_run::Sampler;
use std::alloc::AllocError;
use std::thread::{Threads, for_each_mut};
use stream_runs::{Job, MOST_WORKERS, SeedRange};
use zar_io::Gate;

/// Claims blocks of streams, the last of which may be shorter, until there is none left, runs the sampler on the streams of each,
/// and counts how the runs end. The gate is told of each block before its first stream. Whatever the answer, the share holds the
/// same pass of the same board, and the gate was told of the blocks dealt to it. An error comes only where memory runs out, and
/// nothing is promised of the table then.
pub fn work<G: Gate>(
    board: &Board,
    share: &mut Share,
    s: &Sampler,
    l: &Limits,
    range: &SeedRange,
    gate: &G,
) -> Result<(), AllocError>
    requires limits { InRange l.now }
    requires range { IsRange range.now }
    requires ready { IsReady board.now range.now share.old }
    ensures pass { IsSamePass (pass_of share.old) (pass_of share.new) }
    ensures board { IsPassOf board.now (pass_of share.new) }
    ensures entered { told_by share.new ≡ told_by share.old ++ dealt_to (pass_of share.new) }
    ensures counted { OnOk result (IsCounted s.now l.now range.now share.new) }
{
    let home = s.start(share.alloc, l)?;
    let mut state = home.fork(share.alloc)?;
    let mut small = SmallCounts::new();
    while let Some(block) = board.claim(&mut share.pass) {
        share.visits.enter(gate, block);
        count_block(
            &mut state,
            &home,
            &mut small,
            &mut share.table,
            range,
            block,
        )?;
    }
    small.add_to(&mut share.table)
}

fn work_entry<G: Gate>(board: &Board, job: &Job<'_, G>, entry: &mut Entry)
    requires job { IsReadyJob job.now.limits.now job.now.range.now }
    requires ready { IsReady board.now job.now.range.now entry.old.share }
    ensures { IsWorked job.now.sampler.now job.now.limits.now job.now.range.now entry.old entry.new }
{
    entry.done = work(
        board,
        &mut entry.share,
        job.sampler,
        job.limits,
        job.range,
        job.gate,
    );
}

// Each entry's worker runs in a thread of its own, where one can be made.
pub(crate) fn run_workers<R: Threads + Sync, G: Gate>(
    rt: &R,
    board: &Board,
    job: &Job<'_, G>,
    entries: &mut [Entry],
)
    requires job { IsReadyJob job.now.limits.now job.now.range.now }
    requires ready { All (λ e. IsReady board.now job.now.range.now e.share) entries.old }
    ensures { AllZip (IsWorked job.now.sampler.now job.now.limits.now job.now.range.now) entries.old entries.new }
{
    for_each_mut(
        rt,
        entries,
        MOST_WORKERS as usize,
        &|_, e: &mut Entry|
            requires { IsReadyJob job.now.limits.now job.now.range.now × IsReady board.now job.now.range.now e.now.share }
            ensures { IsWorked job.entry.now.sampler.now job.entry.now.limits.now job.entry.now.range.now e.entry.now e.exit.now }
        { work_entry(board, job, e) },
    );
}
