//! A hunt, from its boards to its answer.
ghost use Rattle.std.specs.Prelude.{◌≡◌, Bool, List, All, IfOk, Ok, vec_len};
ghost use Rattle.gcl_core.specs.declared.answers.Answer.{Answer};
ghost use Rattle.gcl_core.specs.meaning.LimitRange.{InRange};
ghost use Rattle.sampler_code.specs.Assembled.{IsRunOf};
ghost use Rattle.stream_runs.specs.Jobs.{IsReadyJob};
ghost use Rattle.stream_runs.specs.Ranges.{IsRange, IsWorkers};
ghost use Rattle.claim_board.specs.Board as claim;
ghost use Rattle.least_board.specs.Board as offers;
ghost use Rattle.hunt_range.specs.Sought.{sought_of, LeastWanted};
ghost use Rattle.hunt_range.specs.inner.Hunters.{BelongTogether, IsReadyHunter, HasHuntedRuns, AreAll};

use crate::hunter::Hunter;
use crate::working::run_all;
use claim_board::{Board, Pass};
use gcl_core::{Limits, TallyKey};
use least_board::{LeastBoard, LeastPass};
use sampler_run::Sampler;
use std::alloc::{AllocError, Global};
use std::thread::Threads;
use stream_runs::{Job, STREAMS_OF_A_BLOCK, SeedRange};
use zar_io::{Gate, Visits};

// A hunter for each two passes.
fn hunters_of(
    alloc: Global,
    board: &Board,
    least: &LeastBoard,
    mut passes: Vec<Pass>,
    mut bids: Vec<LeastPass>,
) -> Result<Vec<Hunter>, AllocError>
    requires passes { claim.AreAllPasses board.now passes.items × All claim.IsNew passes.items }
    requires bids { offers.AreAllPasses least.now bids.items × All (offers.IsNew (offers.top_of least.now)) bids.items }
    requires count { vec_len bids ≡ vec_len passes }
    ensures all { IfOk result (λ hunters. AreAll board.now least.now hunters.items) }
    ensures ready { IfOk result (λ hunters. All (IsReadyHunter board.now least.now) hunters.items) }
{
    let mut hunters = Vec::with_capacity(alloc, passes.len())?;
    while let Some(pass) = passes.pop() {
        let Some(bid) = bids.pop() else {
            unreachable!()
        };
        hunters.push(Hunter {
            pass,
            bid,
            visits: Visits::new(),
            done: Ok(()),
        })?;
    }
    Ok(hunters)
}

// Closes both boards. The least number offered is the least stream that is wanted.
fn close_both<G: Gate>(
    alloc: Global,
    job: &Job<'_, G>,
    want: &TallyKey,
    board: Board,
    least: LeastBoard,
    mut hunters: Vec<Hunter>,
) -> Result<Option<u64>, AllocError>
    requires job { IsReadyJob job.now.limits.now job.now.range.now }
    requires fits { BelongTogether board least job.now.range.now }
    requires all { AreAll board least hunters.items }
    requires hunted { All (λ h. h.done ≡ Ok tt
        → HasHuntedRuns job.now.sampler.now job.now.limits.now job.now.range.now want.now h.pass h.bid) hunters.items }
    ensures { IfOk result (λ found. (run : List Bool → Answer) → IsRunOf job.now.sampler.now job.now.limits.now run
        → LeastWanted (sought_of run job.now.range.now want.now) found) }
{
    let mut passes = Vec::with_capacity(alloc, hunters.len())?;
    let mut bids = Vec::with_capacity(alloc, hunters.len())?;
    while let Some(hunter) = hunters.pop() {
        let Hunter {
            pass,
            bid,
            visits: _,
            done,
        } = hunter;
        done?;
        passes.push(pass)?;
        bids.push(bid)?;
    }
    board.close(passes);
    let found = least.close(bids);
    if found < job.range.to {
        return Ok(Some(found));
    }
    Ok(None)
}

/// The least stream of the range on which the run of the sampler has this key: it ends in this outcome, or needs more bits than
/// the budget. `None` comes exactly where there is none. The answer is the same for any number of threads and any gate. Streams
/// go in blocks of [`STREAMS_OF_A_BLOCK`], and the gate is told of each block before its first stream; blocks behind a stream
/// that was found may be left out. An error comes only where memory runs out.
pub fn hunt<R: Threads + Sync, G: Gate>(
    rt: &R,
    alloc: Global,
    s: &Sampler,
    l: &Limits,
    range: &SeedRange,
    want: &TallyKey,
    gate: &G,
) -> Result<Option<u64>, AllocError>
    requires limits { InRange l.now }
    requires range { IsRange range.now }
    requires workers { IsWorkers range.now.workers }
    ensures { IfOk result
        (λ found. (run : List Bool → Answer) → IsRunOf s.now l.now run → LeastWanted (sought_of run range.now want.now) found) }
{
    let job = Job {
        sampler: s,
        limits: l,
        range,
        gate,
    };
    let (board, passes) = Board::new(alloc, range.blocks(), range.workers)?;
    let (least, bids) = LeastBoard::new(alloc, range.to, range.workers)?;
    let mut hunters = hunters_of(alloc, &board, &least, passes, bids)?;
    run_all(
        rt,
        alloc,
        &board,
        &least,
        &job,
        want,
        hunters.as_mut_slice(),
    );
    close_both(alloc, &job, want, board, least, hunters)
}
