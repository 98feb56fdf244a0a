// Draws of the program of a text.

ghost use Rattle.std.specs.Prelude.{◌≡◌, ◌↔◌, ◌⊎◌, length};
ghost use Rattle.gcl_core.specs.meaning.Syntax.{SourceProgram};
ghost use Rattle.gcl_core.specs.text.Texts.{Spells, SpellsNone};
ghost use Rattle.stream_runs.specs.Draws.{AreDrawn};
ghost use Rattle.zar_c.specs.Draws.{CanDraw, limits_of};
ghost use Rattle.zar_c.specs.Said.{place_of, bare, done, text_refused};

use crate::asking::{ZarLimits, can_draw, run_limits};
use crate::said::{ZarSaid, refused, said};
use crate::statuses::{DONE, NUMBERS_REFUSED, OUT_OF_MEMORY, TEXT_REFUSED};
use gcl_parse::one_reading;
use gcl_text::check_text;
use std::alloc::Global;
use stream_runs::{StreamsFrom, draws_of};

/// Writes how the runs of the program that a text spells end: place k of both arrays gets the end of the run on the first
/// `budget` bits of the stream `first` + k of the seed. The status is 0 where it did, 1 where the text spells no program, with
/// the code and the place of its refusal, 2 where the numbers are out of range or the arrays are not alike, and 5 where memory
/// ran out. Where it is not 0 the arrays stay as they were.
#[unsafe(no_mangle)]
pub extern "C" fn zar_draws(
    alloc: Global,
    text: &[u8],
    seed: u64,
    first: u64,
    limits: &ZarLimits,
    values: &mut [i64],
    ends: &mut [u8],
) -> ZarSaid
    ensures drawn { (result.status ≡ DONE) → (p : SourceProgram) → Spells text.now p →
        AreDrawn p (limits_of limits.now) seed first limits.now.budget values.new ends.new }
    ensures spelled { (result.status ≡ DONE) → (p : SourceProgram) × Spells text.now p }
    ensures refused { (result.status ≡ TEXT_REFUSED) → SpellsNone text.now result.code (place_of result) }
    ensures asked { (result.status ≡ NUMBERS_REFUSED) ↔ (CanDraw limits.now first (length values.old) (length ends.old) → ⊥) }
    ensures untouched { (result.status ≡ DONE → ⊥) → (values.new ≡ values.old) × (ends.new ≡ ends.old) }
    ensures form { (result ≡ done 0) ⊎ (result ≡ text_refused result.code (place_of result)) ⊎ (result ≡ bare NUMBERS_REFUSED)
        ⊎ (result ≡ bare OUT_OF_MEMORY) }
{
    one_reading();
    if !can_draw(limits, first, values.len(), ends.len()) {
        return said(NUMBERS_REFUSED);
    }
    let program = match check_text(alloc, text) {
        Ok(program) => program,
        Err(refusal) => return refused(refusal),
    };
    let streams = StreamsFrom {
        seed,
        first,
        budget: limits.budget,
    };
    match draws_of(alloc, &program, &run_limits(limits), streams, values, ends) {
        Ok(()) => said(DONE),
        Err(_) => said(OUT_OF_MEMORY),
    }
}
