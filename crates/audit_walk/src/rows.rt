// Rows of outcomes and their counts.

ghost use Rattle.std.specs.Prelude.{◌≡◌, ◌+◌, ◌^◌, ◌<◌, true, IfOk};
ghost use Rattle.std.specs.Ordering.{MatchOrdering};
ghost use Rattle.gcl_core.specs.meaning.Order.{is_before};
ghost use Rattle.audit_walk.specs.Rows.{IsRows, sum_of_counts};
ghost use Rattle.audit_walk.specs.inner.Sums.{AddsUp};

use gcl_core::{Outcome, outcomes_are_ordered};
use std::alloc::{AllocError, Global};
use std::cmp::Ordering;
use std::marker::Model;

/// How many bit strings end in each outcome: outcomes ascend, and each count is above 0.
#[derive(Drop)]
pub struct AuditRows {
    rows: Vec<(Outcome, u64)>,
}

impl Model for AuditRows {
    ghost use Rattle.audit_walk.specs.Rows.{Rows, IsRows};

    ghost Value = { Rows };

    ghost view = { λ r. r.rows.items };

    ghost invariant = { λ r. IsRows r.rows.items };
}

// Which of two outcomes comes first.
fn compare(a: Outcome, b: Outcome) -> Ordering
    ensures { MatchOrdering result (is_before a b ≡ true) (a ≡ b) (is_before b a ≡ true) }
{
    outcomes_are_ordered();
    a.cmp(&b)
}

// The rows of both, an outcome of both once.
fn merge(
    alloc: Global,
    first: &[(Outcome, u64)],
    second: &[(Outcome, u64)],
) -> Result<Vec<(Outcome, u64)>, AllocError>
    requires first { IsRows first.now }
    requires second { IsRows second.now }
    requires fits { sum_of_counts first.now + sum_of_counts second.now < 2 ^ 64 }
    ensures rows { IfOk result (λ v. IsRows v.items) }
    ensures sums { IfOk result (λ v. AddsUp first.now second.now v.items) }
{
    let mut rows = Vec::with_capacity(alloc, first.len().max(second.len()))?;
    let mut left = first;
    let mut right = second;
    loop {
        let Some((x, after_x)) = left.split_first() else {
            rows.extend_from_slice(right)?;
            return Ok(rows);
        };
        let Some((y, after_y)) = right.split_first() else {
            rows.extend_from_slice(left)?;
            return Ok(rows);
        };
        match compare(x.0, y.0) {
            Ordering::Less => {
                rows.push(*x)?;
                left = after_x;
            }
            Ordering::Equal => {
                rows.push((x.0, x.1 + y.1))?;
                left = after_x;
                right = after_y;
            }
            Ordering::Greater => {
                rows.push(*y)?;
                right = after_y;
            }
        }
    }
}

impl AuditRows {
    ghost use Rattle.std.specs.Prelude.{◌≡◌, ◌+◌, ◌<◌, ◌^◌, [], ◌∷◌, length, slice_get, Some, IfOk};
    ghost use Rattle.audit_walk.specs.Rows.{IsRows, sum_of_counts};
    ghost use Rattle.audit_walk.specs.inner.Sums.{AddsUp};

    pub(crate) fn none(alloc: Global) -> AuditRows
        ensures { result ≡ [] }
    {
        AuditRows {
            rows: Vec::new(alloc),
        }
    }

    pub(crate) fn one(alloc: Global, outcome: Outcome, count: u64) -> Result<AuditRows, AllocError>
        requires { 0 < count }
        ensures { IfOk result (λ r. r ≡ (outcome, count) ∷ []) }
    {
        let mut rows = Vec::new(alloc);
        rows.push((outcome, count))?;
        Ok(AuditRows { rows })
    }

    // The rows of both, the counts of an outcome of both added. An error comes only where memory runs out.
    pub(crate) fn add(self, alloc: Global, other: AuditRows) -> Result<AuditRows, AllocError>
        requires fits { sum_of_counts self + sum_of_counts other < 2 ^ 64 }
        ensures sums { IfOk result (λ r. AddsUp self other r) }
    {
        Ok(AuditRows {
            rows: merge(alloc, &self.rows, &other.rows)?,
        })
    }

    /// It does nothing: what the rows of every audit keep, for a proof that has lost it.
    pub(crate) fn are_kept(&self)
        ensures { IsRows self.now }
    {
        let _ = &self.rows;
    }

    /// The number of rows. What the rows keep is told here.
    pub fn count(&self) -> usize
        ensures count { result ≡ length self.now }
        ensures rows { IsRows self.now }
    {
        self.rows.len()
    }

    /// A row, by its index, which is below the number of rows.
    pub fn get(&self, i: usize) -> (Outcome, u64)
        requires { i < length self.now }
        ensures { slice_get self.now i ≡ Some result }
    {
        self.rows[i]
    }
}
