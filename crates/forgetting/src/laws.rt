// What forgetting leaves.

ghost use Rattle.std.specs.Prelude.{◌≡◌};
ghost use Rattle.gcl_core.specs.declared.answers.Limits.{Limits};
ghost use Rattle.gcl_core.specs.meaning.Checked.{IsChecked};
ghost use Rattle.gcl_core.specs.meaning.Syntax.{SourceProgram};
ghost use Rattle.cost_law.specs.ExpectedBits.{expected_bits};
ghost use Rattle.forgetting.specs.Forgetful.{forgetful_of};
ghost use Rattle.forgetting.specs.SameMeaning.{SameMeaning};

/// It does nothing: its clause says that the forgetful program means what the program means, for every program, checked or not.
pub fn forgetting_changes_no_meaning()
    ensures { (p : SourceProgram) → SameMeaning p (forgetful_of p) }
{}

/// It does nothing: its clause says that runs of the forgetful program read as many bits on average as those of the program, for
/// every program, checked or not, and all limits. The two numbers are the same fraction.
pub fn forgetting_costs_nothing()
    ensures { (p : SourceProgram) (l : Limits) → expected_bits (forgetful_of p) l ≡ expected_bits p l }
{}

/// It does nothing: its clause says that the forgetful program of a checked program keeps all that a checked program keeps.
pub fn forgetting_keeps_programs_checked()
    ensures { (p : SourceProgram) → IsChecked p → IsChecked (forgetful_of p) }
{}
