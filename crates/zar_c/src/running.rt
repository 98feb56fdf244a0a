// The run of the program of a text on bits of the caller.

ghost use Rattle.std.specs.Prelude.{◌≡◌, ◌↔◌, ◌⊎◌};
ghost use Rattle.gcl_core.specs.meaning.LimitRange.{InRange};
ghost use Rattle.gcl_core.specs.meaning.Runs.{run_on};
ghost use Rattle.gcl_core.specs.meaning.Syntax.{SourceProgram};
ghost use Rattle.gcl_core.specs.text.Texts.{Spells, SpellsNone};
ghost use Rattle.sampler_run.specs.Telling.{used_in};
ghost use Rattle.stream_runs.specs.Ends.{end_of, value_of};
ghost use Rattle.zar_c.specs.Masses.{limits_by};
ghost use Rattle.zar_c.specs.Runs.{IsRan};
ghost use Rattle.zar_c.specs.Said.{place_of, bare, done, text_refused};
ghost use Rattle.zar_io.specs.FileBits.{file_bits};

use crate::asking::is_in_range;
use crate::said::{ZarSaid, refused, said};
use crate::statuses::{DONE, NUMBERS_REFUSED, OUT_OF_MEMORY, TEXT_REFUSED};
use bit_runs::{run_on_bytes, used};
use gcl_core::{Answer, Limits};
use gcl_parse::one_reading;
use gcl_text::check_text;
use std::alloc::Global;
use stream_runs::{end_of, value_of};

/// How a run ends: its value, or 0 where it has none; how many bits it read; and which end it is.
#[repr(C)]
#[derive(Drop)]
pub struct ZarRan {
    pub value: i64,
    pub read: u64,
    pub end: u8,
}

fn ran_to(answer: Answer) -> ZarRan
    ensures { IsRan answer result }
{
    ZarRan {
        value: value_of(answer),
        read: used(answer),
        end: end_of(answer),
    }
}

/// Writes how the run of the program that a text spells ends on the bits of some bytes, each byte's most significant bit first. The
/// status is 0 where it did, 1 where the text spells no program, with the code and the place of its refusal, 2 where a limit is out
/// of range, and 5 where memory ran out. Where it is not 0 nothing is written.
#[unsafe(no_mangle)]
pub extern "C" fn zar_run(
    alloc: Global,
    text: &[u8],
    bits: &[u8],
    turns: u64,
    attempts: u64,
    rounds: u64,
    ran: &mut ZarRan,
) -> ZarSaid
    ensures ran { (result.status ≡ DONE) → (p : SourceProgram) → Spells text.now p →
        IsRan (run_on p (limits_by turns attempts rounds) (file_bits bits.now)) ran.new }
    ensures spelled { (result.status ≡ DONE) → (p : SourceProgram) × Spells text.now p }
    ensures refused { (result.status ≡ TEXT_REFUSED) → SpellsNone text.now result.code (place_of result) }
    ensures asked { (result.status ≡ NUMBERS_REFUSED) ↔ (InRange (limits_by turns attempts rounds) → ⊥) }
    ensures untouched { (result.status ≡ DONE → ⊥) → ran.new ≡ ran.old }
    ensures form { (result ≡ done 0) ⊎ (result ≡ text_refused result.code (place_of result)) ⊎ (result ≡ bare NUMBERS_REFUSED)
        ⊎ (result ≡ bare OUT_OF_MEMORY) }
{
    one_reading();
    let l = Limits {
        turns,
        attempts,
        rounds,
    };
    if !is_in_range(&l) {
        return said(NUMBERS_REFUSED);
    }
    let program = match check_text(alloc, text) {
        Ok(program) => program,
        Err(refusal) => return refused(refusal),
    };
    match run_on_bytes(alloc, &program, &l, bits) {
        Ok(answer) => {
            *ran = ran_to(answer);
            said(DONE)
        }
        Err(_) => said(OUT_OF_MEMORY),
    }
}
