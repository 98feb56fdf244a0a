// What is told of a text: whether it spells a program, its canonical text, and the code that samples it; and of the library its
// version.

ghost use Rattle.std.specs.Prelude.{◌≡◌, ◌⊎◌};
ghost use Rattle.gcl_core.specs.meaning.Syntax.{SourceProgram};
ghost use Rattle.gcl_core.specs.text.Texts.{IsRefusedText, Spells, SpellsNone};
ghost use Rattle.gcl_print.specs.Canonical.{canonical_text};
ghost use Rattle.sampler_code.specs.Code.{code_of};
ghost use Rattle.sampler_code.specs.Listing.{listing};
ghost use Rattle.zar_c.specs.Answered.{AreTold, IsShown, IsWrittenAs};
ghost use Rattle.zar_c.specs.Said.{place_of, bare, done, text_refused};

use crate::said::{ZarSaid, refused, said, written};
use crate::shown::{listing_of, shown_of};
use crate::statuses::{DONE, OUT_OF_MEMORY, TEXT_REFUSED};
use gcl_text::check_text;
use report_text::VERSION_LINE;
use std::alloc::Global;

/// Writes the line of the version, where the array has room, and tells its length in any case.
#[unsafe(no_mangle)]
pub extern "C" fn zar_version(lines: &mut [u8]) -> ZarSaid
    ensures form { result ≡ done result.length }
    ensures told { AreTold (λ line. line ≡ VERSION_LINE.now) result.length lines.old lines.new }
{
    written(VERSION_LINE.as_bytes(), lines)
}

/// Tells whether a text spells a program: the status is 0 where it does, 1 where it spells none, with the code and the place of
/// its refusal, and 5 where memory ran out.
#[unsafe(no_mangle)]
pub extern "C" fn zar_check(alloc: Global, text: &[u8]) -> ZarSaid
    ensures spelled { (result.status ≡ DONE) → (p : SourceProgram) × Spells text.now p }
    ensures refused { (result.status ≡ TEXT_REFUSED) → SpellsNone text.now result.code (place_of result) }
    ensures form { (result ≡ done 0) ⊎ (result ≡ text_refused result.code (place_of result)) ⊎ (result ≡ bare OUT_OF_MEMORY) }
{
    let _program = match check_text(alloc, text) {
        Ok(program) => program,
        Err(refusal) => return refused(refusal),
    };
    said(DONE)
}

/// Writes the canonical text of the program that a text has as it is written, which is not checked, where the array has room,
/// and tells its length in any case. The status is 0 where it has one, 1 where it has none, with the code and the place of its
/// refusal, and 5 where memory ran out. Where it is not 0 the array stays as it was.
#[unsafe(no_mangle)]
pub extern "C" fn zar_show(alloc: Global, text: &[u8], lines: &mut [u8]) -> ZarSaid
    ensures { IsShown (IsWrittenAs text.now) (IsRefusedText text.now) canonical_text lines.old lines.new result }
{
    match shown_of(alloc, text) {
        Ok(shown) => written(shown.bytes(), lines),
        Err(said) => said,
    }
}

/// The same of the listing of the code that samples the program that a text spells.
#[unsafe(no_mangle)]
pub extern "C" fn zar_code(alloc: Global, text: &[u8], lines: &mut [u8]) -> ZarSaid
    ensures { IsShown (Spells text.now) (SpellsNone text.now) (λ p. listing p.names (code_of p))
        lines.old lines.new result }
{
    match listing_of(alloc, text) {
        Ok(listed) => written(listed.bytes(), lines),
        Err(said) => said,
    }
}
