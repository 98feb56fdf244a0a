//! The tables of states that the forgetful program goes through have no more states than those of the program. The function does
//! nothing: its clause is a theorem about definitions.
//!
//! Proved, for every program, checked or not, and all limits: the most states at a point of the forgetful program are at most the
//! most at a point of the program (`forgetting_adds_no_states`). So where the forgetful program has a point with too many states,
//! the program has one, too.
//!
//! No clause says that the states become fewer, or by how many, and none is of the width of the fractions.
#![tactic(auto)]

ghost use Rattle.std.specs.Prelude.{◌≤◌, ℕ, Option};
ghost use Rattle.gcl_core.specs.meaning.Syntax.{SourceProgram};
ghost use Rattle.forgetting.specs.Forgetful.{forgetful_of};
ghost use Rattle.table_flow.specs.Tables.{peak_of};

/// It does nothing: its clause says that no point of the forgetful program is reached with more states than some point of the
/// program is, for every program, checked or not, all limits of turns, and any limit of attempts or none.
pub fn forgetting_adds_no_states()
    ensures { (p : SourceProgram) (n : ℕ) (r : Option ℕ) → peak_of (forgetful_of p) n r ≤ peak_of p n r }
{}
