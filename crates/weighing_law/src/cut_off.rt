// How little the limits of attempts and of rounds cut off.

ghost use Rattle.std.specs.Prelude.{◌≤◌, ℕ};
ghost use Rattle.gcl_core.specs.declared.answers.Limits.{Limits};
ghost use Rattle.gcl_core.specs.meaning.Checked.{IsChecked};
ghost use Rattle.gcl_core.specs.meaning.Syntax.{SourceProgram};
ghost use Rattle.gcl_core.specs.weighing.Fractions.{AtMost};
ghost use Rattle.weighing_law.specs.LimitsCost.{MayPass, cut_off};
ghost use Rattle.weighing_law.specs.CutOff.{most_cut_off, enough_attempts, enough_rounds};

/// It does nothing: its clauses say how little the limits of attempts and of rounds weigh, for every checked program, where
/// without a limit of attempts a round fails with probability below 1 at the limit of turns. It falls as a power of 1/2 with the
/// attempts, and as a power of that probability with the rounds. So for each limit of turns it is as little as is wanted from
/// some limits of attempts and of rounds on.
pub fn limits_cut_off_little()
    ensures at_most { (p : SourceProgram) (l : Limits) → IsChecked p → MayPass p l → 1 ≤ l.attempts →
        AtMost (cut_off p l) (most_cut_off p l) }
    ensures vanishes { (p : SourceProgram) (l : Limits) (k : ℕ) → IsChecked p → MayPass p l →
        enough_attempts p l.turns k ≤ l.attempts → enough_rounds p l.turns k ≤ l.rounds → AtMost (cut_off p l) (1, k) }
{}
