// What a table comes to behind a block, with what was counted on the way, and a table once more.

ghost use Rattle.std.specs.Prelude.{◌≡◌, Some, IfOk};
ghost use Rattle.numbers.specs.Arithmetic.{sum_of};
ghost use Rattle.table_flow.specs.Counts.{all_kept, none_stopped};
ghost use Rattle.mass_fold.specs.declared.ended.Ended.{Ended};
ghost use Rattle.mass_fold.specs.inner.Steps.{StepsTo};

use crate::error::BitsError;
use exact_fold::finding::copied;
use exact_fold::turning::same;
use mass_fold::{Table, merge};
use numbers::Frac;
use std::alloc::Global;

/// The table behind a block, and the bits that were read on the way.
#[derive(Drop)]
pub struct Reached {
    pub table: Table,
    pub bits: Frac,
}

/// Both tables in one, and the sum of both bits.
pub fn joined(left: Reached, right: Reached) -> Result<Reached, BitsError>
    requires { right.table.vars ≡ left.table.vars }
    ensures table { IfOk result (λ r. (E : Ended) → StepsTo all_kept none_stopped
        left.table.states.entries right.table.states.entries E r.table.states.entries E) }
    ensures bits { IfOk result (λ r. sum_of left.bits right.bits ≡ Some r.bits) }
    ensures vars { IfOk result (λ r. r.table.vars ≡ left.table.vars) }
{
    let mut table = left.table;
    merge(&mut table, right.table)?;
    let bits = left.bits.add(&right.bits).ok_or(BitsError::TooWide)?;
    Ok(Reached { table, bits })
}

/// Some bits more.
pub fn with_more(reached: Reached, more: &Frac) -> Result<Reached, BitsError>
    ensures table { IfOk result (λ r. r.table.states.entries ≡ reached.table.states.entries) }
    ensures bits { IfOk result (λ r. sum_of more.now reached.bits ≡ Some r.bits) }
    ensures vars { IfOk result (λ r. r.table.vars ≡ reached.table.vars) }
{
    let bits = more.add(&reached.bits).ok_or(BitsError::TooWide)?;
    Ok(Reached {
        table: reached.table,
        bits,
    })
}

/// No bit was read.
pub fn silently(table: Table) -> Reached
    ensures table { result.table ≡ table }
    ensures bits { result.bits ≡ (0, 1) }
{
    Reached {
        table,
        bits: Frac::of(0, 1),
    }
}

/// The table once more, with the same entries.
pub fn twin(alloc: Global, table: &Table) -> Result<Table, BitsError>
    ensures same { IfOk result (λ t. t.states.entries ≡ table.now.states.entries) }
    ensures vars { IfOk result (λ t. t.vars ≡ table.now.vars) }
{
    let copy = copied(alloc, table)?;
    if !same(&copy, table) {
        return Err(BitsError::NotFound);
    }
    Ok(copy)
}
