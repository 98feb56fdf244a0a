// What holds of the grammar and of texts, whatever is parsed.

ghost use Rattle.std.specs.Prelude.{◌≡◌, ◌↔◌, ◌⊎◌, ℕ, List};
ghost use Rattle.gcl_core.specs.declared.tokens.Token.{Token};
ghost use Rattle.gcl_core.specs.declared.tokens.TokenKind.{TokenKind};
ghost use Rattle.gcl_core.specs.meaning.Syntax.{SourceProgram};
ghost use Rattle.gcl_core.specs.meaning.Bounds.{BlockCounted};
ghost use Rattle.gcl_core.specs.meaning.Checked.{IsChecked};
ghost use Rattle.gcl_core.specs.text.Texts.{Spells};
ghost use Rattle.gcl_core.specs.text.Words.{kinds_of};
ghost use Rattle.gcl_core.specs.text.Derivation.{Derives};
ghost use Rattle.gcl_core.specs.text.NoNegative.{HasNoNegative};
ghost use Rattle.gcl_core.specs.text.GrammarRefusal.{IsProgram, RefusedAt};
ghost use Rattle.gcl_parse.specs.OneReading.{HasOneReadingAsWritten, HasOneReading};
ghost use Rattle.gcl_parse.specs.Refused.{IsDerived};

use gcl_lex::one_answer;

/// Whether the tokens of a text derive a program depends on their kinds alone.
pub fn kinds_decide()
    ensures { (text : List ℕ) (tokens : List Token) → (IsDerived text tokens ↔ IsProgram (kinds_of tokens)) }
{}

/// Tokens of any kinds are a program, or the grammar refuses them at exactly one place, and never both.
pub fn program_or_refused()
    ensures some { (ks : List TokenKind) → IsProgram ks ⊎ ((i : ℕ) × RefusedAt ks i) }
    ensures place { (ks : List TokenKind) (i j : ℕ) → RefusedAt ks i → RefusedAt ks j → i ≡ j }
    ensures apart { (ks : List TokenKind) (i : ℕ) → IsProgram ks → RefusedAt ks i → ⊥ }
{}

/// The tokens of a text derive at most one program, in which no number of an expression is below 0, and each choice among several
/// has as many arms as it may have.
pub fn one_program()
    ensures program { (text : List ℕ) (tokens : List Token) (p q : SourceProgram) (at places : List ℕ)
        → Derives text tokens p at → Derives text tokens q places → (q ≡ p) × (places ≡ at) }
    ensures written { (text : List ℕ) (tokens : List Token) (p : SourceProgram) (at : List ℕ) → Derives text tokens p at
        → HasNoNegative p }
    ensures arms { (text : List ℕ) (tokens : List Token) (p : SourceProgram) (at : List ℕ) → Derives text tokens p at
        → BlockCounted p.body }
{}

/// The program that a text spells is a checked program.
pub fn spelled_programs_are_checked()
    ensures { (text : List ℕ) (p : SourceProgram) → Spells text p → IsChecked p }
{}

/// Each list of bytes is read in exactly one way. As it is written, it has one program, with the places of its statements, or is
/// refused with one code at one place, and never both. As it is checked, it spells one accepted program, or is refused with one
/// code at one place, and never both.
pub fn one_reading()
    ensures written { (text : List ℕ) → HasOneReadingAsWritten text }
    ensures checked { (text : List ℕ) → HasOneReading text }
{
    one_answer();
}
