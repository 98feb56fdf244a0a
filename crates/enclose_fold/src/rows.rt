// The rows of bounds.

ghost use Rattle.std.specs.Prelude.{◌≡◌, ◌++◌, [], IfOk, OnOk, IfErr};
ghost use Rattle.units_law.specs.Units.{total};
ghost use Rattle.enclose_fold.specs.declared.error.EncloseError.TheVariants.{OutOfMemory};
ghost use Rattle.enclose_fold.specs.inner.Rows.{with_row, rows_of};

use crate::bounding::Round;
use crate::error::EncloseError;
use bounds_law::BoundRows;
use gcl_core::Outcome;
use numbers::Frac;
use std::alloc::Global;
use std::collections::BTreeMap;

// Adds the row of an outcome, where it has bounds.
fn add_row(
    rows: &mut Vec<(Outcome, Frac, Frac)>,
    x: Outcome,
    bounds: Option<(Frac, Frac)>,
) -> Result<(), EncloseError>
    ensures ok { OnOk result (rows.new.items ≡ rows.old.items ++ with_row x bounds []) }
    ensures cause { IfErr result (λ e. e ≡ OutOfMemory) }
{
    match bounds {
        Some((low, high)) => rows.push((x, low, high))?,
        None => {}
    }
    Ok(())
}

/// The rows of the outcomes that have a unit of all rounds at least, from the units of each in one.
pub fn bound_rows(
    alloc: Global,
    round: Round,
    units: BTreeMap<Outcome, u128>,
) -> Result<BoundRows, EncloseError>
    requires { total units.entries ≡ round.all }
    ensures rows { IfOk result (λ rows. rows ≡ rows_of round.rounds round.failed round.all units.entries) }
    ensures cause { IfErr result (λ e. e ≡ OutOfMemory) }
{
    let mut rows = Vec::new(alloc);
    for (x, w) in units {
        add_row(&mut rows, x, round.bounds(&x, w))?;
    }
    Ok(BoundRows::of(rows))
}
