// Audits.

use crate::rows::AuditRows;
use gcl_core::Outcome;
use std::alloc::{AllocError, Global};

/// How the bit strings of one length end: how many in each outcome, where those that begin with a string on which the run has
/// ended end as it did, and on how many the run needs more bits.
#[derive(Drop)]
pub struct Audit {
    pub rows: AuditRows,
    pub undecided: u64,
}

impl Audit {
    ghost use Rattle.std.specs.Prelude.{◌≡◌, ◌+◌, ◌≤◌, ◌<◌, ◌^◌, [], ◌∷◌, IfOk};
    ghost use Rattle.audit_walk.specs.declared.auditing.TheConstants.{MOST_DEPTH};
    ghost use Rattle.audit_walk.specs.Rows.{sum_of_counts};
    ghost use Rattle.audit_walk.specs.inner.Sums.{AddsUp};

    // The audit of all strings of `left` bits, where each of them ends in one outcome.
    pub(crate) fn ended(alloc: Global, outcome: Outcome, left: u32) -> Result<Audit, AllocError>
        requires { left ≤ MOST_DEPTH }
        ensures rows { IfOk result (λ a. a.rows ≡ (outcome, 2 ^ left) ∷ []) }
        ensures undecided { IfOk result (λ a. a.undecided ≡ 0) }
    {
        Ok(Audit {
            rows: AuditRows::one(alloc, outcome, 1 << left)?,
            undecided: 0,
        })
    }

    // The run needs more than the one string of no bits.
    pub(crate) fn undecided(alloc: Global) -> Audit
        ensures rows { result.rows ≡ [] }
        ensures undecided { result.undecided ≡ 1 }
    {
        Audit {
            rows: AuditRows::none(alloc),
            undecided: 1,
        }
    }

    // Two audits added. An error comes only where memory runs out.
    pub(crate) fn add(self, alloc: Global, other: Audit) -> Result<Audit, AllocError>
        requires fits { sum_of_counts self.rows + self.undecided + (sum_of_counts other.rows + other.undecided) < 2 ^ 64 }
        ensures { IfOk result (λ a. AddsUp self.rows other.rows a.rows × (a.undecided ≡ self.undecided + other.undecided)) }
    {
        Ok(Audit {
            undecided: self.undecided + other.undecided,
            rows: self.rows.add(alloc, other.rows)?,
        })
    }
}
