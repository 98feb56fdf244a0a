// Rows of masses in wide fractions.

ghost use Rattle.std.specs.Prelude.{◌≡◌, ◌<◌, length, Some, slice_get, IfOk};
ghost use Rattle.mass_fold.specs.Rows.{Ascending, EachLowest};

use gcl_core::{Outcome, outcomes_are_ordered};
use mass_fold::is_ordered;
use std::alloc::{AllocError, Global};
use std::collections::BTreeMap;
use std::marker::Model;
use wide_numbers::WideFraction;

/// Outcomes in ascending order, each with its weight, which is above 0.
///
/// A contract sees the list of the rows, each an outcome and the two numbers of its weight.
#[derive(Drop)]
pub struct WideRows {
    rows: Vec<(Outcome, WideFraction)>,
}

impl Model for WideRows {
    ghost use Rattle.mass_fold.specs.Rows.{Rows};

    ghost Value = { Rows };

    ghost view = { λ r. r.rows.items };
}

impl WideRows {
    /// How many rows there are.
    pub fn count(&self) -> usize
        ensures { result ≡ length self.now }
    {
        self.rows.len()
    }

    /// The row at this place, counted from 0.
    pub fn get(&self, i: usize) -> &(Outcome, WideFraction)
        requires { i < length self.now }
        ensures { slice_get self.now i ≡ Some result.now }
    {
        &self.rows[i]
    }

    /// The entries of a table as rows, in their order. An error comes only where memory runs out.
    pub(crate) fn of(
        alloc: Global,
        table: BTreeMap<Outcome, WideFraction>,
    ) -> Result<WideRows, AllocError>
        ensures same { IfOk result (λ rows. rows ≡ table.entries) }
        ensures ascending { IfOk result Ascending }
        ensures lowest { IfOk result EachLowest }
    {
        outcomes_are_ordered();
        let mut rows = Vec::new(alloc);
        is_ordered(&table);
        for (x, f) in table {
            let _den = f.den();
            rows.push((x, f))?;
        }
        Ok(WideRows { rows })
    }
}
