// What holds of rows of masses.

ghost use Rattle.std.specs.Prelude.{◌≡◌, Bool, List, Some};
ghost use Rattle.gcl_core.specs.declared.answers.Answer.{Answer};
ghost use Rattle.gcl_core.specs.declared.answers.Limits.{Limits};
ghost use Rattle.gcl_core.specs.declared.answers.Outcome.{Outcome};
ghost use Rattle.gcl_core.specs.weighing.Fractions.{Fraction};
ghost use Rattle.gcl_core.specs.weighing.Mass.{mass_of};
ghost use Rattle.gcl_core.specs.meaning.Syntax.{SourceProgram};
ghost use Rattle.mass_fold.specs.Rows.{Rows, AreMasses};
ghost use Rattle.mass_fold.specs.Weighed.{AreWeighed};
ghost use Rattle.weighing_law.specs.Weighing.{WeighsExactly};

/// It does nothing: its clause says that masses have one list of rows.
pub fn masses_have_one_list()
    ensures { (mass : Outcome → Fraction) (a : Rows) (b : Rows) → AreMasses mass a → AreMasses mass b → a ≡ b }
{}

/// It does nothing: its clause says that the rows of masses under limits are the masses of which the weighing law speaks, outcome
/// by outcome. For whatever weighs as the run of a program does under these limits, as its compiled sampler, the strings that end
/// in the outcome of a row weigh at most what the row says, exactly that at every length that suffices, and no string ends in an
/// outcome without a row.
pub fn masses_are_weighed()
    ensures { (p : SourceProgram) (l : Limits) (run : List Bool → Answer) (rows : Rows) → WeighsExactly run p l
        → AreMasses (mass_of p l.turns (Some l.attempts) (Some l.rounds)) rows → AreWeighed run rows }
{}
