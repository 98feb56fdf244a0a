// The lines of tallies and of audits of the program of a text.

ghost use Rattle.std.specs.Prelude.{◌≤◌, IfOk, IfErr};
ghost use Rattle.audit_walk.specs.declared.auditing.TheConstants.{MOST_DEPTH};
ghost use Rattle.count_lines.specs.AuditLines.{AreAuditLines};
ghost use Rattle.count_lines.specs.TallyLines.{AreTallyLines};
ghost use Rattle.gcl_core.specs.meaning.LimitRange.{InRange};
ghost use Rattle.gcl_core.specs.meaning.Syntax.{SourceProgram};
ghost use Rattle.gcl_core.specs.meaning.Views.{source_of};
ghost use Rattle.gcl_core.specs.text.Texts.{Spells, SpellsNone};
ghost use Rattle.stream_runs.specs.Ranges.{IsRange};
ghost use Rattle.zar_c.specs.inner.Refusing.{IsRefusal};

use crate::said::{ZarSaid, refused, said};
use crate::statuses::OUT_OF_MEMORY;
use audit_walk::audit_alone;
use count_lines::{audit_text, tally_text};
use gcl_core::{Checked, Limits};
use gcl_parse::one_reading;
use gcl_print::Text;
use gcl_text::check_text;
use one_thread::tally_alone;
use report_text::Decimals;
use sampler_run::compile;
use std::alloc::{AllocError, Global};
use stream_runs::SeedRange;

// The lines of the tally of a program. An error comes only where memory runs out.
fn tally_of(
    alloc: Global,
    program: &Checked,
    range: &SeedRange,
    l: &Limits,
) -> Result<Text, AllocError>
    requires limits { InRange l.now }
    requires range { IsRange range.now }
    ensures { IfOk result (AreTallyLines (source_of program.now) range.now l.now) }
{
    let sampler = compile(alloc, program)?;
    let found = tally_alone(alloc, &sampler, l, range)?;
    let text = tally_text(alloc, &found)?;
    Ok(text)
}

// The lines of the audit of a program. An error comes only where memory runs out.
fn audit_of(alloc: Global, program: &Checked, depth: u32, l: &Limits) -> Result<Text, AllocError>
    requires depth { depth ≤ MOST_DEPTH }
    requires limits { InRange l.now }
    ensures { IfOk result (AreAuditLines (source_of program.now) depth l.now 0) }
{
    let sampler = compile(alloc, program)?;
    let found = audit_alone(alloc, &sampler, l, depth)?;
    let text = audit_text(alloc, depth, &found, Decimals::none())?;
    Ok(text)
}

// The lines of the tally of the program that a text spells.
pub(crate) fn counts_of(
    alloc: Global,
    text: &[u8],
    range: &SeedRange,
    l: &Limits,
) -> Result<Text, ZarSaid>
    requires limits { InRange l.now }
    requires range { IsRange range.now }
    ensures lines { IfOk result (λ lines. (p : SourceProgram) → Spells text.now p → AreTallyLines p range.now l.now lines) }
    ensures there { IfOk result (λ _. (p : SourceProgram) × Spells text.now p) }
    ensures refused { IfErr result (IsRefusal (Spells text.now) (SpellsNone text.now) (λ _ _. ⊥)) }
{
    one_reading();
    let program = match check_text(alloc, text) {
        Ok(program) => program,
        Err(refusal) => return Err(refused(refusal)),
    };
    match tally_of(alloc, &program, range, l) {
        Ok(lines) => Ok(lines),
        Err(_) => Err(said(OUT_OF_MEMORY)),
    }
}

// The lines of its audit.
pub(crate) fn shares_of(alloc: Global, text: &[u8], depth: u32, l: &Limits) -> Result<Text, ZarSaid>
    requires depth { depth ≤ MOST_DEPTH }
    requires limits { InRange l.now }
    ensures lines { IfOk result (λ lines. (p : SourceProgram) → Spells text.now p → AreAuditLines p depth l.now 0 lines) }
    ensures there { IfOk result (λ _. (p : SourceProgram) × Spells text.now p) }
    ensures refused { IfErr result (IsRefusal (Spells text.now) (SpellsNone text.now) (λ _ _. ⊥)) }
{
    one_reading();
    let program = match check_text(alloc, text) {
        Ok(program) => program,
        Err(refusal) => return Err(refused(refusal)),
    };
    match audit_of(alloc, &program, depth, l) {
        Ok(lines) => Ok(lines),
        Err(_) => Err(said(OUT_OF_MEMORY)),
    }
}
