// The canonical text, and the listing of the code, of the program of a text.

ghost use Rattle.std.specs.Prelude.{◌≡◌, ℕ, IfOk, IfErr};
ghost use Rattle.gcl_core.specs.meaning.Syntax.{SourceProgram};
ghost use Rattle.gcl_core.specs.meaning.Views.{source_of};
ghost use Rattle.gcl_core.specs.text.Texts.{IsRefusedText, Spells, SpellsNone};
ghost use Rattle.gcl_print.specs.Canonical.{canonical_text};
ghost use Rattle.sampler_code.specs.Code.{code_of};
ghost use Rattle.sampler_code.specs.Listing.{listing};
ghost use Rattle.zar_c.specs.Answered.{IsWrittenAs};
ghost use Rattle.zar_c.specs.inner.Refusing.{IsRefusal};

use crate::said::{ZarSaid, refused, said};
use crate::statuses::OUT_OF_MEMORY;
use gcl_core::Checked;
use gcl_parse::one_reading;
use gcl_print::{Text, print};
use gcl_text::{check_text, parse_text};
use sampler_code::list;
use sampler_run::compile;
use std::alloc::{AllocError, Global};

// The canonical text of the program that a text has as it is written.
pub(crate) fn shown_of(alloc: Global, text: &[u8]) -> Result<Text, ZarSaid>
    ensures lines { IfOk result (λ lines. (p : SourceProgram) → IsWrittenAs text.now p → lines ≡ canonical_text p) }
    ensures there { IfOk result (λ _. (p : SourceProgram) × IsWrittenAs text.now p) }
    ensures refused { IfErr result (IsRefusal (IsWrittenAs text.now) (IsRefusedText text.now) (λ _ _. ⊥)) }
{
    one_reading();
    let parsed = match parse_text(alloc, text) {
        Ok(parsed) => parsed,
        Err(refusal) => return Err(refused(refusal)),
    };
    match print(alloc, &parsed.program) {
        Ok(shown) => Ok(Text::of(shown)),
        Err(_) => Err(said(OUT_OF_MEMORY)),
    }
}

// The listing of the code that samples a program. An error comes only where memory runs out.
fn listed(alloc: Global, program: &Checked) -> Result<Text, AllocError>
    ensures { IfOk result (λ text.
        text ≡ listing (source_of program.now).names (code_of (source_of program.now))) }
{
    let sampler = compile(alloc, program)?;
    let text = list(alloc, sampler.code(), &program.program().names)?;
    Ok(Text::of(text))
}

// The listing of the code that samples the program that a text spells.
pub(crate) fn listing_of(alloc: Global, text: &[u8]) -> Result<Text, ZarSaid>
    ensures lines { IfOk result (λ lines. (p : SourceProgram) → Spells text.now p →
        lines ≡ listing p.names (code_of p)) }
    ensures there { IfOk result (λ _. (p : SourceProgram) × Spells text.now p) }
    ensures refused { IfErr result (IsRefusal (Spells text.now) (SpellsNone text.now) (λ _ _. ⊥)) }
{
    one_reading();
    let program = match check_text(alloc, text) {
        Ok(program) => program,
        Err(refusal) => return Err(refused(refusal)),
    };
    match listed(alloc, &program) {
        Ok(lines) => Ok(lines),
        Err(_) => Err(said(OUT_OF_MEMORY)),
    }
}
