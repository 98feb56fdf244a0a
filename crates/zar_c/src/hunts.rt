// Hunts for a run of the program of a text.

ghost use Rattle.std.specs.Prelude.{◌≡◌, ◌↔◌, ◌⊎◌, IfOk};
ghost use Rattle.gcl_core.specs.meaning.LimitRange.{InRange};
ghost use Rattle.gcl_core.specs.meaning.Syntax.{SourceProgram};
ghost use Rattle.gcl_core.specs.meaning.Views.{source_of};
ghost use Rattle.gcl_core.specs.text.Texts.{Spells, SpellsNone};
ghost use Rattle.stream_runs.specs.Ranges.{IsRange};
ghost use Rattle.zar_c.specs.Counts.{range_by};
ghost use Rattle.zar_c.specs.Draws.{limits_of};
ghost use Rattle.zar_c.specs.Hunts.{CanHunt, IsFound, key_by, found_by};
ghost use Rattle.zar_c.specs.Said.{place_of, bare, done, text_refused};

use crate::asking::{ZarLimits, can_hunt, run_limits};
use crate::said::{ZarSaid, refused, said};
use crate::statuses::{DONE, NUMBERS_REFUSED, OUT_OF_MEMORY, TEXT_REFUSED};
use gcl_core::{Checked, Fault, Limit, Limits, Outcome, TallyKey};
use gcl_parse::one_reading;
use gcl_text::check_text;
use one_thread::hunt_alone;
use sampler_run::compile;
use std::alloc::{AllocError, Global};
use stream_runs::{ATTEMPTS, BAD_BOUND, OVERFLOW, ROUNDS, SeedRange, TURNS, VALUE, ZERO_DIVISOR};

/// What a hunt finds: a stream, or 0 and that there is none.
#[repr(C)]
#[derive(Drop)]
pub struct ZarFound {
    pub stream: u64,
    pub found: bool,
}

fn found_by(stream: Option<u64>) -> ZarFound
    ensures { result ≡ found_by stream }
{
    match stream {
        Some(stream) => ZarFound {
            stream,
            found: true,
        },
        None => ZarFound {
            stream: 0,
            found: false,
        },
    }
}

// The way to end of this number, with this value where it has one.
fn key_by(value: i64, end: u8) -> TallyKey
    ensures { result ≡ key_by value end }
{
    if end == VALUE {
        TallyKey::Outcome(Outcome::Value(value))
    } else if end == OVERFLOW {
        TallyKey::Outcome(Outcome::Fault(Fault::Overflow))
    } else if end == ZERO_DIVISOR {
        TallyKey::Outcome(Outcome::Fault(Fault::ZeroDivisor))
    } else if end == BAD_BOUND {
        TallyKey::Outcome(Outcome::Fault(Fault::BadBound))
    } else if end == TURNS {
        TallyKey::Outcome(Outcome::Limit(Limit::Turns))
    } else if end == ATTEMPTS {
        TallyKey::Outcome(Outcome::Limit(Limit::Attempts))
    } else if end == ROUNDS {
        TallyKey::Outcome(Outcome::Limit(Limit::Rounds))
    } else {
        TallyKey::MoreBits
    }
}

// What a hunt for a run of a program finds. An error comes only where memory runs out.
fn found_of(
    alloc: Global,
    program: &Checked,
    range: &SeedRange,
    l: &Limits,
    want: TallyKey,
) -> Result<ZarFound, AllocError>
    requires limits { InRange l.now }
    requires range { IsRange range.now }
    ensures { IfOk result (IsFound (source_of program.now) l.now range.now want) }
{
    let sampler = compile(alloc, program)?;
    let stream = hunt_alone(alloc, &sampler, l, range, &want)?;
    Ok(found_by(stream))
}

/// Writes which stream is the least, from `from` on and below `to`, on whose first `budget` bits the run of the program that a text
/// spells ends as `zar_draws` tells it by this end and this value, which is looked at only where the end is a value; or that there is
/// none. The status is 0 where it did, 1 where the text spells no program, with the code and the place of its refusal, 2 where the
/// numbers are out of range, and 5 where memory ran out. Where it is not 0 nothing is written.
#[unsafe(no_mangle)]
pub extern "C" fn zar_hunt(
    alloc: Global,
    text: &[u8],
    seed: u64,
    from: u64,
    to: u64,
    limits: &ZarLimits,
    value: i64,
    end: u8,
    found: &mut ZarFound,
) -> ZarSaid
    ensures found { (result.status ≡ DONE) → (p : SourceProgram) → Spells text.now p →
        IsFound p (limits_of limits.now) (range_by seed from to limits.now.budget) (key_by value end) found.new }
    ensures spelled { (result.status ≡ DONE) → (p : SourceProgram) × Spells text.now p }
    ensures refused { (result.status ≡ TEXT_REFUSED) → SpellsNone text.now result.code (place_of result) }
    ensures asked { (result.status ≡ NUMBERS_REFUSED) ↔ (CanHunt limits.now from to end → ⊥) }
    ensures untouched { (result.status ≡ DONE → ⊥) → found.new ≡ found.old }
    ensures form { (result ≡ done 0) ⊎ (result ≡ text_refused result.code (place_of result)) ⊎ (result ≡ bare NUMBERS_REFUSED)
        ⊎ (result ≡ bare OUT_OF_MEMORY) }
{
    one_reading();
    if !can_hunt(limits, from, to, end) {
        return said(NUMBERS_REFUSED);
    }
    let program = match check_text(alloc, text) {
        Ok(program) => program,
        Err(refusal) => return refused(refusal),
    };
    let range = SeedRange {
        seed,
        from,
        to,
        budget: limits.budget,
        workers: 1,
    };
    match found_of(
        alloc,
        &program,
        &range,
        &run_limits(limits),
        key_by(value, end),
    ) {
        Ok(it) => {
            *found = it;
            said(DONE)
        }
        Err(_) => said(OUT_OF_MEMORY),
    }
}
