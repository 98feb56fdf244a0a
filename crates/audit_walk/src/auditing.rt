// The audit of a sampler.

ghost use Rattle.std.specs.Prelude.{◌≡◌, ◌+◌, ◌^◌, ◌≤◌, Bool, List, IfOk};
ghost use Rattle.gcl_core.specs.declared.answers.Answer.{Answer};
ghost use Rattle.gcl_core.specs.meaning.LimitRange.{InRange};
ghost use Rattle.sampler_code.specs.Assembled.{IsRunOf};
ghost use Rattle.audit_walk.specs.Audited.{IsAuditOf};
ghost use Rattle.audit_walk.specs.Rows.{sum_of_counts};

use crate::audits::Audit;
use crate::walking::{spread, walk};
use gcl_core::Limits;
use sampler_run::Sampler;
use std::alloc::{AllocError, Global};
use std::marker::Sync;
use std::thread::Threads;

/// The most bits of the strings of an audit.
pub const MOST_DEPTH: u32 = 20;

// Where fewer bits were read, the two sides of a further bit are walked in threads of their own.
const FORKS: u32 = 4;

/// How the runs of a sampler end on the bit strings of one length, of at most [`MOST_DEPTH`] bits, under limits in range. The
/// rows are exactly the outcomes that some string ends in, each with its weight at the scale of 2 to that length; `undecided` is
/// the number of strings of that length on which the run needs more. Counts and undecided strings add up to all strings. An error
/// comes only where memory runs out, in whichever thread.
pub fn audit<R: Threads + Sync>(
    rt: &R,
    alloc: Global,
    s: &Sampler,
    l: &Limits,
    depth: u32,
) -> Result<Audit, AllocError>
    requires limits { InRange l.now }
    requires depth { depth ≤ MOST_DEPTH }
    ensures runs { IfOk result
        (λ a. (run : List Bool → Answer) → IsRunOf s.now l.now run → IsAuditOf run depth a.rows a.undecided) }
    ensures all { IfOk result (λ a. sum_of_counts a.rows + a.undecided ≡ 2 ^ depth) }
{
    let state = s.start(alloc, l)?;
    let audit = spread(rt, alloc, &state, depth, FORKS)?;
    audit.rows.are_kept();
    Ok(audit)
}

/// The same by the caller's thread alone, for who may not start others.
pub fn audit_alone(alloc: Global, s: &Sampler, l: &Limits, depth: u32) -> Result<Audit, AllocError>
    requires limits { InRange l.now }
    requires depth { depth ≤ MOST_DEPTH }
    ensures runs { IfOk result
        (λ a. (run : List Bool → Answer) → IsRunOf s.now l.now run → IsAuditOf run depth a.rows a.undecided) }
    ensures all { IfOk result (λ a. sum_of_counts a.rows + a.undecided ≡ 2 ^ depth) }
{
    let mut state = s.start(alloc, l)?;
    let mut spare = Vec::new(alloc);
    let audit = walk(alloc, &mut state, &mut spare, depth)?;
    audit.rows.are_kept();
    Ok(audit)
}
