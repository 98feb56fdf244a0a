// Draws in a row of the program of a text.

ghost use Rattle.std.specs.Prelude.{◌≡◌, ◌↔◌, ◌⊎◌, length};
ghost use Rattle.bit_runs.specs.Rows.{AreInARow};
ghost use Rattle.gcl_core.specs.meaning.Syntax.{SourceProgram};
ghost use Rattle.gcl_core.specs.text.Texts.{Spells, SpellsNone};
ghost use Rattle.zar_c.specs.Draws.{CanDrawInARow, limits_of};
ghost use Rattle.zar_c.specs.Said.{place_of, bare, done, text_refused};
ghost use Rattle.zar_io.specs.StreamBits.{stream_bits};

use crate::asking::{ZarLimits, can_draw_in_a_row, run_limits};
use crate::said::{ZarSaid, refused, said};
use crate::statuses::{DONE, NUMBERS_REFUSED, OUT_OF_MEMORY, TEXT_REFUSED};
use bit_runs::{OneStream, draws_on_stream};
use gcl_parse::one_reading;
use gcl_text::check_text;
use std::alloc::Global;

/// Writes how runs in a row of the program that a text spells end, on the first `budget` bits of a stream of the seed: place k of
/// both arrays gets the end of the run on what the k runs before it left. It tells how many bits all of them read. The status is 0
/// where it did, 1 where the text spells no program, with the code and the place of its refusal, 2 where the numbers are out of range
/// or the arrays are not alike, and 5 where memory ran out. Where it is not 0 nothing is written.
#[unsafe(no_mangle)]
pub extern "C" fn zar_draws_in_a_row(
    alloc: Global,
    text: &[u8],
    seed: u64,
    stream: u64,
    limits: &ZarLimits,
    values: &mut [i64],
    ends: &mut [u8],
    read: &mut u64,
) -> ZarSaid
    ensures drawn { (result.status ≡ DONE) → (p : SourceProgram) → Spells text.now p →
        AreInARow p (limits_of limits.now) (stream_bits seed stream limits.now.budget) values.new ends.new read.new }
    ensures spelled { (result.status ≡ DONE) → (p : SourceProgram) × Spells text.now p }
    ensures refused { (result.status ≡ TEXT_REFUSED) → SpellsNone text.now result.code (place_of result) }
    ensures asked { (result.status ≡ NUMBERS_REFUSED) ↔ (CanDrawInARow limits.now (length values.old) (length ends.old) → ⊥) }
    ensures untouched { (result.status ≡ DONE → ⊥) →
        (values.new ≡ values.old) × (ends.new ≡ ends.old) × (read.new ≡ read.old) }
    ensures form { (result ≡ done 0) ⊎ (result ≡ text_refused result.code (place_of result)) ⊎ (result ≡ bare NUMBERS_REFUSED)
        ⊎ (result ≡ bare OUT_OF_MEMORY) }
{
    one_reading();
    if !can_draw_in_a_row(limits, values.len(), ends.len()) {
        return said(NUMBERS_REFUSED);
    }
    let program = match check_text(alloc, text) {
        Ok(program) => program,
        Err(refusal) => return refused(refusal),
    };
    let from = OneStream {
        seed,
        stream,
        budget: limits.budget,
    };
    match draws_on_stream(alloc, &program, &run_limits(limits), from, values, ends) {
        Ok(bits) => {
            *read = bits;
            said(DONE)
        }
        Err(_) => said(OUT_OF_MEMORY),
    }
}
