// The width of the numbers in a run.

ghost use Rattle.std.specs.Prelude.{◌≡◌, ◌↔◌, ℕ, ℤ, Bool, List, Ok, IsTrue, FitsSigned, length};
ghost use Rattle.std.specs.Int.{w64};
ghost use Rattle.gcl_core.specs.declared.answers.Answer.TheVariants as answer;
ghost use Rattle.gcl_core.specs.declared.answers.Outcome.TheVariants as outcome;
ghost use Rattle.gcl_core.specs.meaning.Blocks.{on, block_on};
ghost use Rattle.gcl_core.specs.meaning.Bounds.{ExpressionFits, BlockFits};
ghost use Rattle.gcl_core.specs.meaning.Fitting.{state_fits};
ghost use Rattle.gcl_core.specs.meaning.Checked.{IsChecked};
ghost use Rattle.gcl_core.specs.meaning.Reading.{gives};
ghost use Rattle.gcl_core.specs.meaning.Runs.{run_on};
ghost use Rattle.gcl_core.specs.meaning.Outcomes.{zeros};
ghost use Rattle.gcl_core.specs.meaning.Syntax.{Expression, Statements, SourceProgram};
ghost use Rattle.gcl_core.specs.meaning.Value.{State, fits_64, value_of};

use crate::answers::Limits;

/// It does nothing: its clauses say that all numbers of a run have 64 bits, where those that are written in its program have. In
/// a state of such numbers an expression's value has 64 bits, and a block that ends in a state ends in one of such numbers. Each
/// round of a checked program begins in one, so its body and all blocks in it go from such a state to such a state, and a value
/// that its run ends in has 64 bits.
pub fn numbers_have_64_bits()
    ensures width { (z : ℤ) → IsTrue (fits_64 z) ↔ FitsSigned w64 z }
    ensures values { (e : Expression) (s : State) (v : ℤ) → ExpressionFits e → IsTrue (state_fits s) → value_of e s ≡ Ok v
        → IsTrue (fits_64 v) }
    ensures states { (n : ℕ) (r : ℕ) (b : Statements) (s : State) (end : State) (w : List Bool) (rest : List Bool) →
        BlockFits b → IsTrue (state_fits s) → block_on n r b s w ≡ gives (on end) rest → IsTrue (state_fits end) }
    ensures rounds { (p : SourceProgram) (n : ℕ) (r : ℕ) (end : State) (w : List Bool) (rest : List Bool) →
        IsChecked p → block_on n r p.body (zeros (length p.names)) w ≡ gives (on end) rest → IsTrue (state_fits end) }
    ensures runs { (p : SourceProgram) (l : Limits) (w : List Bool) (v : ℤ) (read : ℕ) →
        IsChecked p → run_on p l w ≡ answer.Ended (outcome.Value v) read → FitsSigned w64 v }
{}
