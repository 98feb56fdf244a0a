//! The workers of a hunt.
ghost use Rattle.std.specs.Prelude.{◌≡◌, ◌++◌, All, IfOk};
ghost use Rattle.std.specs.List.{AllZip};
ghost use Rattle.claim_board.specs.Board.{dealt_to};
ghost use Rattle.stream_runs.specs.Jobs.{IsReadyJob};
ghost use Rattle.hunt_range.specs.inner.Hunters.{BelongTogether, IsReadyHunter, IsSameHunter, told_by, HasHuntedRuns, HasWorked};

use crate::hunter::Hunter;
use crate::streams::first_wanted;
use claim_board::Board;
use gcl_core::TallyKey;
use least_board::LeastBoard;
use std::alloc::{AllocError, Global};
use std::thread::{Threads, for_each_mut};
use stream_runs::{Job, MOST_WORKERS};
use zar_io::Gate;

/// Claims blocks, and offers of each the first stream that is wanted. It stops where no block is left, or where the block that
/// was claimed last begins at the least stream that was found, or behind it. The gate is told of each block before its first
/// stream, whatever the answer. An error comes only where memory runs out.
pub fn work<G: Gate>(
    alloc: Global,
    board: &Board,
    least: &LeastBoard,
    job: &Job<'_, G>,
    want: &TallyKey,
    hunter: &mut Hunter,
) -> Result<(), AllocError>
    requires job { IsReadyJob job.now.limits.now job.now.range.now }
    requires fits { BelongTogether board.now least.now job.now.range.now }
    requires ready { IsReadyHunter board.now least.now hunter.old }
    ensures same { IsSameHunter hunter.old hunter.new }
    ensures entered { told_by hunter.new ≡ told_by hunter.old ++ dealt_to hunter.new.pass }
    ensures hunted { IfOk result
        (λ _. HasHuntedRuns job.now.sampler.now job.now.limits.now job.now.range.now want.now hunter.new.pass hunter.new.bid) }
{
    let home = job.sampler.start(alloc, job.limits)?;
    let mut state = home.fork(alloc)?;
    while let Some(block) = board.claim(&mut hunter.pass) {
        hunter.visits.enter(job.gate, block);
        let first = job.range.first_stream(block);
        if least.look(&mut hunter.bid) <= first {
            return Ok(());
        }
        if let Some(stream) = first_wanted(&mut state, &home, job.range, want, first) {
            least.offer(&mut hunter.bid, stream);
        }
    }
    Ok(())
}

fn work_for<G: Gate>(
    alloc: Global,
    board: &Board,
    least: &LeastBoard,
    job: &Job<'_, G>,
    want: &TallyKey,
    hunter: &mut Hunter,
)
    requires job { IsReadyJob job.now.limits.now job.now.range.now }
    requires fits { BelongTogether board.now least.now job.now.range.now }
    requires ready { IsReadyHunter board.now least.now hunter.old }
    ensures { HasWorked (HasHuntedRuns job.now.sampler.now job.now.limits.now job.now.range.now want.now) hunter.old hunter.new }
{
    hunter.done = work(alloc, board, least, job, want, hunter);
}

/// Each hunter works in a thread of its own, where one can be made.
pub fn run_all<R: Threads + Sync, G: Gate>(
    rt: &R,
    alloc: Global,
    board: &Board,
    least: &LeastBoard,
    job: &Job<'_, G>,
    want: &TallyKey,
    hunters: &mut [Hunter],
)
    requires job { IsReadyJob job.now.limits.now job.now.range.now }
    requires fits { BelongTogether board.now least.now job.now.range.now }
    requires ready { All (IsReadyHunter board.now least.now) hunters.old }
    ensures { AllZip (HasWorked
        (HasHuntedRuns job.now.sampler.now job.now.limits.now job.now.range.now want.now)) hunters.old hunters.new }
{
    for_each_mut(
        rt,
        hunters,
        MOST_WORKERS as usize,
        &|_, h: &mut Hunter|
            requires { IsReadyJob job.now.limits.now job.now.range.now × BelongTogether board.now least.now job.now.range.now
                × IsReadyHunter board.now least.now h.now }
            ensures { HasWorked
                (HasHuntedRuns job.entry.now.sampler.now job.entry.now.limits.now job.entry.now.range.now want.entry.now)
                h.entry.now h.exit.now }
        { work_for(alloc, board, least, job, want, h) },
    );
}
