// From a text to its program.

ghost use Rattle.std.specs.Prelude.{IfOk, IsErrOf};
ghost use Rattle.gcl_core.specs.meaning.Syntax.{SourceProgram};
ghost use Rattle.gcl_core.specs.text.Texts.{Spells};
ghost use Rattle.gcl_core.specs.meaning.Views.{source_of};

use crate::error::ReadError;
use gcl_core::Checked;
use gcl_parse::one_reading;
use gcl_text::{TextRefusal, check_text};
use std::alloc::Global;

/// The program that a text spells. `NoProgram` comes only where it spells none.
pub fn program(alloc: Global, text: &[u8]) -> Result<Checked, ReadError>
    ensures spelled { IfOk result (λ p. Spells text.now (source_of p)) }
    ensures none { IsErrOf result ReadError.NoProgram → (p : SourceProgram) → Spells text.now p → ⊥ }
{
    one_reading();
    match check_text(alloc, text) {
        Ok(program) => Ok(program),
        Err(TextRefusal::Coded(_, _)) => Err(ReadError::NoProgram),
        Err(TextRefusal::OutOfMemory) => Err(ReadError::OutOfMemory),
    }
}
