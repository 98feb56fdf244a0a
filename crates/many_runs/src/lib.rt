//! Laws of many runs: in a row on one list of bits, and each on a stream of its own. The functions do nothing: their clauses are
//! theorems about definitions.
//!
//! Proved, for every checked program and all limits: of the 2^L strings of L bits, those on which runs in a row end in given
//! outcomes are at most 2^L times the product of their masses, and exactly so many where no string needs more bits, so the runs
//! are independent (`runs_in_a_row_weigh_products`). On any streams of L bits a run ends in an outcome as often as a stream
//! begins with a string that is just read to it; so its count is off what the outcome weighs by no more than the streams are off
//! even at these strings (`runs_follow_the_fronts_of_streams`).
//!
//! No clause says that any streams, seeded ones among them, begin evenly; that has to be measured. All strings of L bits, each
//! once, do (`even`).
#![tactic(auto)]

ghost use Rattle.std.specs.Prelude.{◌≡◌, ◌≤◌, ℕ, Bool, List, length, All};
ghost use Rattle.gcl_core.specs.declared.answers.Answer.{Answer};
ghost use Rattle.gcl_core.specs.declared.answers.Limits.{Limits};
ghost use Rattle.gcl_core.specs.meaning.Checked.{IsChecked};
ghost use Rattle.gcl_core.specs.meaning.Runs.{run_on};
ghost use Rattle.gcl_core.specs.meaning.Syntax.{SourceProgram};
ghost use Rattle.many_runs.specs.AllStrings.{all_strings};
ghost use Rattle.many_runs.specs.Fronts.{FollowsFronts};
ghost use Rattle.many_runs.specs.RowWeights.{RowsWeighExactly};
ghost use Rattle.many_runs.specs.Streams.{BeginEvenly};

/// It does nothing: its clause is the law of runs in a row, for every checked program and all limits. Of the 2 ^ L strings of L
/// bits those on which the runs end in some outcomes, one after the other, are never more than 2 ^ L times the product of their
/// masses, and exactly so many at every length at which no string needs more bits. So the runs are independent.
pub fn runs_in_a_row_weigh_products()
    ensures { (p : SourceProgram) (l : Limits) → IsChecked p → RowsWeighExactly p l }
{}

/// It does nothing: its clause `follow` says how often an outcome comes among the runs on any streams, for every checked program,
/// all limits, and whatever answers on bits as the run of the program does: as often as a stream begins with a string that is
/// just read to the outcome. So it is off what the outcome weighs by no more than the streams are off even at these strings, and
/// exactly as often as the mass says where they begin evenly, as all strings of one length do.
pub fn runs_follow_the_fronts_of_streams()
    ensures follow { (p : SourceProgram) (l : Limits) (run : List Bool → Answer) → IsChecked p
        → ((w : List Bool) → run w ≡ run_on p l w) →
        FollowsFronts run p l }
    ensures lengths { (L : ℕ) → All (λ s. length s ≡ L) (all_strings L) }
    ensures even { (L : ℕ) → BeginEvenly L (all_strings L) }
{}
