//! Bounds of a program's masses that hold for every greater limit of turns, without limits of attempts and of rounds, and rows of bounds.
//!
//! Proved: the bounds of more turns lie within those of fewer, and masses within both (`more_turns_stay_within_the_bounds`). The function
//! does nothing: its clause is a theorem about definitions. Rows show what stands in them (`count`, `get`).
//!
//! No clause says that bounds come close as turns grow: of a program that runs for ever with a chance above 0 they do not. Which rows are
//! the bounds of a program is said by `AreBoundsOf`; `posterior_bounds` works them out.
#![tactic(auto)]

ghost use Rattle.std.specs.Prelude.{◌≤◌, ℕ};
ghost use Rattle.gcl_core.specs.meaning.Checked.{IsChecked};
ghost use Rattle.gcl_core.specs.meaning.Syntax.{SourceProgram};
ghost use Rattle.gcl_core.specs.weighing.Fractions.{IsBelowOne};
ghost use Rattle.bounds_law.specs.Holding.{BoundsHold};
ghost use Rattle.bounds_law.specs.PosteriorBounds.{fails};

mod rows;

pub use rows::{BoundRows, Bounds};

/// It does nothing: its clause is the law of the bounds, for every checked program, every limit of turns and every one of at
/// least that at which a round fails with probability below 1, without limits of attempts and of rounds. At the greater limit the
/// mass of a value or a fault lies between its bounds at the lesser one, both included, and the bounds at the greater limit lie
/// within those at the lesser. They are as far apart for each outcome.
pub fn more_turns_stay_within_the_bounds()
    ensures { (p : SourceProgram) (n n' : ℕ) → IsChecked p → n ≤ n' → IsBelowOne (fails p n') → BoundsHold p n n' }
{}
