// What exact masses say of limits of turns.

ghost use Rattle.std.specs.Prelude.{◌≡◌, ◌≤◌, ℕ};
ghost use Rattle.gcl_core.specs.meaning.Checked.{IsChecked};
ghost use Rattle.gcl_core.specs.meaning.Syntax.{SourceProgram};
ghost use Rattle.gcl_core.specs.weighing.Fractions.{Fraction};
ghost use Rattle.mass_fold.specs.Rows.{Rows};
ghost use Rattle.exact_fold.specs.Exact.{IsExact, FailsAlways};
ghost use Rattle.exact_fold.specs.InTheLimit.{IsExactInTheLimit, FailsInTheLimit};
ghost use Rattle.exact_fold.specs.Limits.{AreLimits, LieWithin, rate_of};
ghost use Rattle.exact_fold.specs.Strings.{StringsTend};

/// It does nothing: its clause says that exact masses of a checked program are the limits of its masses as turns grow, without
/// limits of attempts and of rounds: at n turns none is above its row, and none short of it by more than an n-th of the
/// turns of all loops by their visits, over what does not fail.
pub fn exact_masses_are_limits()
    ensures { (p : SourceProgram) (rows : Rows) (endless : Fraction) → IsChecked p →
        (e : IsExact p rows endless) → AreLimits p rows endless (rate_of p e.settled) }
{}

/// It does nothing: its clause says that exact masses of a checked program lie within the bounds of every limit of turns.
pub fn exact_masses_lie_within_bounds()
    ensures { (p : SourceProgram) (rows : Rows) (endless : Fraction) → IsChecked p → IsExact p rows endless →
        LieWithin p rows }
{}

/// It does nothing: its clause says of a checked program, and of whatever answers on bits as its run does, that the strings on
/// which the run ends in a value or a fault never weigh more than its row, and none where there is no row. For each k they weigh
/// no less but for 1 / k, from some limits on, at every length that suffices.
pub fn strings_tend_to_exact_masses()
    ensures { (p : SourceProgram) (rows : Rows) (endless : Fraction) → IsChecked p → IsExact p rows endless → (k : ℕ) →
        1 ≤ k → StringsTend p rows k }
{}

/// It does nothing: its clauses say that exact masses of a checked program are told by the masses at n turns alone: each row is what
/// the mass of its outcome rises to, and what runs for ever is what that of the limit of turns tends to. Where every round fails in
/// the limit, what a round fails with tends to 1. There is no other answer: the rows and what runs for ever are one, and no program
/// has both such rows and rounds that all fail.
pub fn exact_masses_are_told_by_their_limits()
    ensures limits { (p : SourceProgram) (rows : Rows) (endless : Fraction) → IsChecked p → IsExact p rows endless →
        IsExactInTheLimit p rows endless }
    ensures fails { (p : SourceProgram) → IsChecked p → FailsAlways p → FailsInTheLimit p }
    ensures one { (p : SourceProgram) (rows more : Rows) (endless rest : Fraction) → IsChecked p →
        IsExactInTheLimit p rows endless → IsExactInTheLimit p more rest → (rows ≡ more) × (endless ≡ rest) }
    ensures not_both { (p : SourceProgram) (rows : Rows) (endless : Fraction) → IsChecked p →
        IsExactInTheLimit p rows endless → FailsInTheLimit p → ⊥ }
{}
