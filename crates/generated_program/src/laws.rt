//! What holds of all generated programs.
ghost use Rattle.std.specs.Prelude.{◌≡◌, ◌≤◌, ℕ, List, length};
ghost use Rattle.gcl_core.specs.meaning.Checked.{IsChecked};
ghost use Rattle.gcl_core.specs.text.StatementCounts.{count_all};
ghost use Rattle.gcl_core.specs.meaning.Syntax.{SourceProgram};
ghost use Rattle.gcl_core.specs.text.Texts.{IsWrittenIn, Spells};
ghost use Rattle.gcl_core.specs.declared.rules.TheConstants.{LONGEST_TEXT};
ghost use Rattle.gcl_print.specs.Canonical.{canonical_text};
ghost use Rattle.gcl_print.specs.ReadBack.{HasProgram};
ghost use Rattle.generated_program.specs.Generated.{generated, generated_body};
ghost use Rattle.generated_program.specs.declared.generating.TheConstants.{GREATEST_NUMBER};
ghost use Rattle.generated_program.specs.Sizes.{statements_in, bytes_in};

use gcl_lex::ends_here;
use gcl_print::reads_back;

/// It does nothing: its clause says that the generated program is accepted as it is, with its weights in lowest terms.
pub fn is_checked()
    ensures { (k : ℕ) → k ≤ GREATEST_NUMBER → IsChecked (generated k) }
{}

/// It does nothing: its clause says how many statements the generated program has, blocks within blocks and all.
pub fn has_statements()
    ensures { (k : ℕ) → count_all (generated_body k) ≡ statements_in k }
{}

/// It does nothing: its clauses say how many bytes the canonical text of the generated program has, and that they are
/// within the limit of a text.
pub fn has_bytes()
    ensures bytes { (k : ℕ) → k ≤ GREATEST_NUMBER → length (canonical_text (generated k)) ≡ bytes_in k }
    ensures short { (k : ℕ) → k ≤ GREATEST_NUMBER → length (canonical_text (generated k)) ≤ LONGEST_TEXT }
{}

/// It does nothing: its clauses say that the canonical text of the generated program is read back as it, and as no
/// other program, and spells it.
pub fn is_read_back()
    ensures program { (k : ℕ) → k ≤ GREATEST_NUMBER → HasProgram (canonical_text (generated k)) (generated k) }
    ensures only { (k : ℕ) → k ≤ GREATEST_NUMBER → (q : SourceProgram) (places : List ℕ)
        → IsWrittenIn (canonical_text (generated k)) q places → q ≡ generated k }
    ensures spells { (k : ℕ) → k ≤ GREATEST_NUMBER → Spells (canonical_text (generated k)) (generated k) }
{
    ends_here();
    reads_back();
}
