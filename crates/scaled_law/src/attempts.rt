// What a limit of attempts costs where rounds have no limit.

ghost use Rattle.std.specs.Prelude.{◌≡◌, ◌≤◌, ◌^◌, ℕ, Bool, false, Some, None};
ghost use Rattle.gcl_core.specs.declared.answers.Limit.TheVariants.{Attempts};
ghost use Rattle.gcl_core.specs.declared.answers.Outcome.{Outcome};
ghost use Rattle.gcl_core.specs.declared.answers.Outcome.TheVariants as outcome;
ghost use Rattle.gcl_core.specs.meaning.Checked.{IsChecked};
ghost use Rattle.gcl_core.specs.meaning.Outcomes.{same_outcome};
ghost use Rattle.gcl_core.specs.meaning.Syntax.{SourceProgram};
ghost use Rattle.gcl_core.specs.weighing.Fractions.{plus, divided_by_rest, AtMost, IsBelowOne};
ghost use Rattle.gcl_core.specs.weighing.LongestReading.{longest};
ghost use Rattle.gcl_core.specs.weighing.Mass.{failed_mass, mass_of_those};

/// It does nothing: its clauses say what a limit of attempts costs without a limit of rounds, for every checked program, where without
/// a limit of attempts a round fails with probability below 1. Under the limit it does so, too. Events without that limit weigh no more than
/// they do without it. Any event weighs no more, and no less, but for what the limit weighs. And with r attempts, at least 1, the limit weighs at
/// most D/2^r/(1 - f), for D bits of the longest reading by one attempt for each draw, where a round fails with f without a limit of attempts.
pub fn attempts_cost_what_they_weigh()
    ensures passes { (p : SourceProgram) (n r : ℕ) → IsChecked p → IsBelowOne (failed_mass p n None) → IsBelowOne (failed_mass p n (Some r)) }
    ensures below { (p : SourceProgram) (n r : ℕ) → IsChecked p → IsBelowOne (failed_mass p n None) → (meant : Outcome → Bool) →
        meant (outcome.Limit Attempts) ≡ false → AtMost (mass_of_those p n (Some r) None meant) (mass_of_those p n None None meant) }
    ensures no_more { (p : SourceProgram) (n r : ℕ) → IsChecked p → IsBelowOne (failed_mass p n None) → (meant : Outcome → Bool) →
        AtMost (mass_of_those p n (Some r) None meant)
        (plus (mass_of_those p n None None meant) (mass_of_those p n (Some r) None (same_outcome (outcome.Limit Attempts)))) }
    ensures no_less { (p : SourceProgram) (n r : ℕ) → IsChecked p → IsBelowOne (failed_mass p n None) → (meant : Outcome → Bool) →
        AtMost (mass_of_those p n None None meant)
        (plus (mass_of_those p n (Some r) None meant) (mass_of_those p n (Some r) None (same_outcome (outcome.Limit Attempts)))) }
    ensures little { (p : SourceProgram) (n r : ℕ) → IsChecked p → IsBelowOne (failed_mass p n None) → 1 ≤ r →
        AtMost (mass_of_those p n (Some r) None (same_outcome (outcome.Limit Attempts)))
        (divided_by_rest (longest n 1 p.body, 2 ^ r) (failed_mass p n None)) }
{}
