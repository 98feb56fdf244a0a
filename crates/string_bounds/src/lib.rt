//! What the bounds of a program's masses say of the strings of bits that its runs read. The functions do nothing: their clauses are
//! theorems about definitions.
//!
//! Proved: what the strings of bits of a run weigh lies between the bounds, but for what its limits weigh
//! (`strings_lie_between_the_bounds`); and where the bound of all others goes to 0, any two runs come to weigh alike as limits grow
//! (`runs_come_together`).
//!
//! No clause says that the bound of all others goes to 0.
#![tactic(auto)]

ghost use Rattle.std.specs.Prelude.{◌≡◌, ◌≤◌, ℕ, Bool, List};
ghost use Rattle.gcl_core.specs.declared.answers.Answer.{Answer};
ghost use Rattle.gcl_core.specs.declared.answers.Limits.{Limits};
ghost use Rattle.gcl_core.specs.meaning.Checked.{IsChecked};
ghost use Rattle.gcl_core.specs.meaning.Runs.{run_on};
ghost use Rattle.gcl_core.specs.meaning.Syntax.{SourceProgram};
ghost use Rattle.weighing_law.specs.LimitsCost.{MayPass};
ghost use Rattle.string_bounds.specs.ComingTogether.{OthersVanish, ComeTogether};
ghost use Rattle.string_bounds.specs.StringBounds.{LiesBetween, AreNear};

/// It does nothing: its clauses tie the bounds of n turns to strings of bits, for every checked program, all limits of at least n
/// turns at which a round fails with probability below 1, and whatever answers on bits as the run of the program does. The
/// strings that end in a value or a fault weigh at most its upper bound, and at every length that suffices at least its lower
/// bound, less what the limits of attempts and of rounds weigh. So two runs under such limits weigh each value and each fault
/// nearly alike.
pub fn strings_lie_between_the_bounds()
    ensures between { (p : SourceProgram) (l : Limits) (run : List Bool → Answer) (n : ℕ) → IsChecked p →
        ((w : List Bool) → run w ≡ run_on p l w) → MayPass p l → n ≤ l.turns → LiesBetween run p l n }
    ensures near { (p : SourceProgram) (l l' : Limits) (run other : List Bool → Answer) (n : ℕ) → IsChecked p →
        ((w : List Bool) → run w ≡ run_on p l w) → ((w : List Bool) → other w ≡ run_on p l' w) →
        MayPass p l → MayPass p l' → n ≤ l.turns → n ≤ l'.turns → AreNear run other p l' n }
{}

/// It does nothing: its clause is the limit theorem, for every checked program where the bound of all others goes to 0 as the
/// limit of turns grows. For each k there are limits from which on any two runs weigh each value and each fault alike, but for 1
/// / k. That is Cauchy's condition; the real number that they tend to is no part of the clause.
pub fn runs_come_together()
    ensures { (p : SourceProgram) → IsChecked p → OthersVanish p → (k : ℕ) → ComeTogether p k }
{}
