// The walk over the bit strings of one length, by forked states.

ghost use Rattle.std.specs.Prelude.{◌≡◌, ◌<◌, ◌≤◌, [], All, IfOk, OnOk, IfSome, IfNone};
ghost use Rattle.std.specs.Thread.{IsSync};
ghost use Rattle.sampler_run.specs.declared.machine.Progress.TheVariants.{NeedBit};
ghost use Rattle.sampler_run.specs.Held.{StandsAfter, set_back};
ghost use Rattle.sampler_run.specs.Telling.{Tells};
ghost use Rattle.audit_walk.specs.declared.auditing.TheConstants.{MOST_DEPTH};
ghost use Rattle.audit_walk.specs.inner.Counts.{IsCountFrom};

use crate::audits::Audit;
use sampler_run::{Progress, Run};
use std::alloc::{AllocError, Global};
use std::marker::Sync;
use std::thread::{Threads, join};

// The audit of a run that has ended, or that may read no further bit.
fn decided(alloc: Global, state: &Run<'_>, left: u32) -> Result<Option<Audit>, AllocError>
    requires left { left ≤ MOST_DEPTH }
    ensures some { IfOk result (λ o. IfSome o (λ a. IsCountFrom state.now left a.rows a.undecided)) }
    ensures needs { IfOk result (λ o. IfNone o (Tells state.now NeedBit)) }
    ensures more { IfOk result (λ o. IfNone o (0 < left)) }
{
    match state.progress() {
        Progress::Ended(outcome) => Ok(Some(Audit::ended(alloc, outcome, left)?)),
        Progress::NeedBit if left == 0 => Ok(Some(Audit::undecided(alloc))),
        Progress::NeedBit => Ok(None),
    }
}

// A run that stands where this one does, in the room of one that is spare, where there is one.
fn forked<'s>(
    alloc: Global,
    state: &Run<'s>,
    spare: &mut Vec<Run<'s>>,
) -> Result<Run<'s>, AllocError>
    requires same { All (λ s. set_back s ≡ set_back state.now) spare.old.items }
    ensures stands { IfOk result (λ s. StandsAfter [] state.now s) }
    ensures start { IfOk result (λ s. set_back s ≡ set_back state.now) }
    ensures same { All (λ s. set_back s ≡ set_back state.now) spare.new.items }
{
    match spare.pop() {
        None => state.fork(alloc),
        Some(mut room) => {
            room.fork_from(state);
            Ok(room)
        }
    }
}

// The audit of a run over the strings of `left` further bits. Where the run needs a bit it is forked, and the fork is spare again
// once it was walked; where the run has ended it is not continued.
pub(crate) fn walk<'s>(
    alloc: Global,
    state: &mut Run<'s>,
    spare: &mut Vec<Run<'s>>,
    left: u32,
) -> Result<Audit, AllocError>
    requires left { left ≤ MOST_DEPTH }
    requires same { All (λ s. set_back s ≡ set_back state.old) spare.old.items }
    ensures count { IfOk result (λ a. IsCountFrom state.old left a.rows a.undecided) }
    ensures start { OnOk result (set_back state.new ≡ set_back state.old) }
    ensures same { OnOk result (All (λ s. set_back s ≡ set_back state.old) spare.new.items) }
{
    if let Some(audit) = decided(alloc, state, left)? {
        return Ok(audit);
    }
    let mut one = forked(alloc, state, spare)?;
    state.feed(false);
    one.feed(true);
    let first = walk(alloc, state, spare, left - 1)?;
    let second = walk(alloc, &mut one, spare, left - 1)?;
    spare.push(one)?;
    first.add(alloc, second)
}

// The same, where each side of the next `forks` bits that the run needs is walked in a thread of its own.
#[cycle(spreads)]
pub(crate) fn spread<R: Threads + Sync>(
    rt: &R,
    alloc: Global,
    state: &Run<'_>,
    left: u32,
    forks: u32,
) -> Result<Audit, AllocError>
    requires left { left ≤ MOST_DEPTH }
    ensures { IfOk result (λ a. IsCountFrom state.now left a.rows a.undecided) }
{
    if forks == 0 {
        let mut whole = state.fork(alloc)?;
        let mut spare = Vec::new(alloc);
        return walk(alloc, &mut whole, &mut spare, left);
    }
    if let Some(audit) = decided(alloc, state, left)? {
        return Ok(audit);
    }
    let mut zero = state.fork(alloc)?;
    let mut one = state.fork(alloc)?;
    zero.feed(false);
    one.feed(true);
    let rest = left - 1;
    let fewer = forks - 1;
    let (lower, upper) = (&zero, &one);
    let front = move || -> Result<Audit, AllocError>
        requires { IsSync R.row × (rest ≤ MOST_DEPTH) }
        ensures { IfOk result (λ a. IsCountFrom lower.entry.now rest a.rows a.undecided) }
    { spread(rt, alloc, lower, rest, fewer) };
    let back = move || -> Result<Audit, AllocError>
        requires { IsSync R.row × (rest ≤ MOST_DEPTH) }
        ensures { IfOk result (λ a. IsCountFrom upper.entry.now rest a.rows a.undecided) }
    { spread(rt, alloc, upper, rest, fewer) };
    let (first, second) = join(rt, front, back);
    first?.add(alloc, second?)
}
