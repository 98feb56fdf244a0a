//! Laws of how many bits a program's runs read on average, under limits. The functions do nothing: their clauses are theorems
//! about definitions.
//!
//! Proved, for every checked program, all limits, and whatever answers on bits as the program's run: the lengths of the strings
//! on which it ends, each by its weight, add up to at most the expected number of bits that the statements give, and to exactly
//! that at every length at which no string needs more bits (`runs_cost_exactly`). The same of one draw, in one attempt or in at
//! most r (`draws_cost_exactly`).
//!
//! No clause says what is read on average without limits: all three are part of `expected_bits`. Nor how far one run may be from
//! the average, nor how the number is worked out, which is the matter of `cost_fold`.
#![tactic(auto)]

ghost use Rattle.std.specs.Prelude.{◌≡◌, ℕ, Bool, List};
ghost use Rattle.gcl_core.specs.declared.answers.Answer.{Answer};
ghost use Rattle.gcl_core.specs.declared.answers.Limits.{Limits};
ghost use Rattle.gcl_core.specs.meaning.Checked.{IsChecked};
ghost use Rattle.gcl_core.specs.weighing.OneDraw.{Ascends};
ghost use Rattle.gcl_core.specs.meaning.Runs.{run_on};
ghost use Rattle.gcl_core.specs.meaning.Syntax.{SourceProgram};
ghost use Rattle.cost_law.specs.Costing.{DrawCosts, CostsExactly};
ghost use Rattle.cost_law.specs.ExpectedBits.{expected_bits};

/// It does nothing: its clause is the law of what one draw costs, for ends that do not decrease. The lengths of the strings on
/// which an attempt ends, in a class or rejected, each by its weight, add up to the expected bits of an attempt; and so do
/// those of a draw by at most r attempts.
pub fn draws_cost_exactly()
    ensures { (ends : List ℕ) (r : ℕ) → Ascends 0 ends → DrawCosts ends r }
{}

/// It does nothing: its clause is the law of costs, for every checked program, all limits, and whatever answers on bits as the
/// run of the program does. The lengths of the strings on which it ends, summed by their weights, are at most the expected number
/// of bits that the statements give, and exactly that at every length at which no string needs more bits. Such a length is the
/// limit of rounds times the longest reading of the body.
pub fn runs_cost_exactly()
    ensures { (p : SourceProgram) (l : Limits) (run : List Bool → Answer) → IsChecked p → ((w : List Bool) → run w ≡ run_on p l w)
        → CostsExactly run p l (expected_bits p l) }
{}
