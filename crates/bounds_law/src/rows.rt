// Rows of bounds.

ghost use Rattle.std.specs.Prelude.{◌≡◌, ◌<◌, length, Some, slice_get};

use gcl_core::Outcome;
use numbers::Frac;
use std::marker::Model;

/// Outcomes in ascending order, each with its lower and its upper bound.
///
/// A contract sees the list of the rows, each an outcome and the two numbers of both bounds.
#[derive(Drop)]
pub struct BoundRows {
    rows: Vec<(Outcome, Frac, Frac)>,
}

impl Model for BoundRows {
    ghost use Rattle.bounds_law.specs.Rows.{Rows};

    ghost Value = { Rows };

    ghost view = { λ r. r.rows.items };
}

impl BoundRows {
    /// How many rows there are.
    pub fn count(&self) -> usize
        ensures { result ≡ length self.now }
    {
        self.rows.len()
    }

    /// The row at this place, counted from 0.
    pub fn get(&self, i: usize) -> &(Outcome, Frac, Frac)
        requires { i < length self.now }
        ensures { slice_get self.now i ≡ Some result.now }
    {
        &self.rows[i]
    }

    /// Rows as they stand in a vector.
    pub fn of(rows: Vec<(Outcome, Frac, Frac)>) -> BoundRows
        ensures { result ≡ rows.items }
    {
        BoundRows { rows }
    }
}

/// Bounds of a program's masses.
#[derive(Drop)]
pub struct Bounds {
    /// Outcomes, each with its two bounds.
    pub rows: BoundRows,
    /// What every other has at most.
    pub other: Frac,
}
