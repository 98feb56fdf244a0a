// Rows of masses.

ghost use Rattle.std.specs.Prelude.{◌≡◌, ◌<◌, length, Some, slice_get, IfOk, IfErr};
ghost use Rattle.mass_fold.specs.declared.error.MassError.TheVariants.{OutOfMemory};
ghost use Rattle.mass_fold.specs.Rows.{Ascending, EachLowest};

use crate::error::MassError;
use crate::ordered::is_ordered;
use gcl_core::{Outcome, outcomes_are_ordered};
use numbers::Frac;
use std::alloc::Global;
use std::collections::BTreeMap;
use std::marker::Model;

/// Outcomes in ascending order, each with its weight, which is above 0.
///
/// A contract sees the list of the rows, each an outcome and the two numbers of its weight.
#[derive(Drop)]
pub struct FracRows {
    rows: Vec<(Outcome, Frac)>,
}

impl Model for FracRows {
    ghost use Rattle.mass_fold.specs.Rows.{Rows};

    ghost Value = { Rows };

    ghost view = { λ r. r.rows.items };
}

impl FracRows {
    /// How many rows there are.
    pub fn count(&self) -> usize
        ensures { result ≡ length self.now }
    {
        self.rows.len()
    }

    /// The row at this place, counted from 0.
    pub fn get(&self, i: usize) -> &(Outcome, Frac)
        requires { i < length self.now }
        ensures { slice_get self.now i ≡ Some result.now }
    {
        &self.rows[i]
    }

    /// The entries of a table as rows, in their order. An error comes only where memory runs out.
    pub fn of(alloc: Global, table: BTreeMap<Outcome, Frac>) -> Result<FracRows, MassError>
        ensures same { IfOk result (λ rows. rows ≡ table.entries) }
        ensures ascending { IfOk result Ascending }
        ensures lowest { IfOk result EachLowest }
        ensures cause { IfErr result (λ e. e ≡ OutOfMemory) }
    {
        outcomes_are_ordered();
        let mut rows = Vec::new(alloc);
        is_ordered(&table);
        for (x, f) in table {
            f.is_lowest();
            rows.push((x, f))?;
        }
        Ok(FracRows { rows })
    }
}

/// The masses of one round.
#[derive(Drop)]
pub struct Round {
    /// The outcomes that a round ends in, each with its mass.
    pub rows: FracRows,
    /// The mass of a failed observation.
    pub failed: Frac,
}
