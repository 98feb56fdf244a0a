// What holds of the lines, whatever is written.

ghost use Rattle.std.specs.Prelude.{◌≡◌, ◌^◌, ◌<◌, ℕ};
ghost use Rattle.gcl_core.specs.declared.answers.Outcome.{Outcome};
ghost use Rattle.report_text.specs.Lines.{mass_text, endless_text};
ghost use Rattle.wide_text.specs.WideLines.{wide_mass_text, wide_endless_text};

/// Where both numbers of a fraction are below 2^128, its line is the one that `report_text` makes of it, byte for byte.
pub fn narrow_lines()
    ensures mass { (d : ℕ) (outcome : Outcome) (mass : ℕ × ℕ) → mass.0 < 2 ^ 128 → mass.1 < 2 ^ 128
        → wide_mass_text d outcome mass ≡ mass_text d outcome mass }
    ensures endless { (d : ℕ) (mass : ℕ × ℕ) → mass.0 < 2 ^ 128 → mass.1 < 2 ^ 128
        → wide_endless_text d mass ≡ endless_text d mass }
{}
