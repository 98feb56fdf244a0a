// The lines of masses, of bounds, of what encloses masses and of expected bits of the program of a text.

ghost use Rattle.std.specs.Prelude.{◌≤◌, None};
ghost use Rattle.gcl_core.specs.declared.answers.Limits.{Limits};
ghost use Rattle.gcl_core.specs.declared.rules.TheConstants.{MOST_LIMIT};
ghost use Rattle.gcl_core.specs.meaning.LimitRange.{InRange};
ghost use Rattle.gcl_core.specs.text.Texts.{Spells, SpellsNone};
ghost use Rattle.mass_lines.specs.BitLines.{IsBitLine};
ghost use Rattle.mass_lines.specs.BoundLines.{AreBoundLines};
ghost use Rattle.mass_lines.specs.EnclosedLines.{AreEnclosedLines};
ghost use Rattle.mass_lines.specs.ExactLines.{AreExactLines};
ghost use Rattle.mass_lines.specs.ExpectedLines.{IsExpectedLine};
ghost use Rattle.mass_lines.specs.HowLongLines.{IsRoundsLine, IsDrawsLine, IsTurnsLine};
ghost use Rattle.mass_lines.specs.MassLines.{AreMassLines};
ghost use Rattle.mass_lines.specs.Reasons.{NoCode, WhyNoBits, WhyNoBounds, WhyNoMasses, WhyNotEnclosed, WhyNotExact, WhyNotExpected};
ghost use Rattle.zar_c.specs.Answered.{IsReply, NoNumbers};
ghost use Rattle.zar_c.specs.Masses.{CanWeigh, limits_by, limit_of};

use crate::asking::is_in_range;
use crate::said::{ZarSaid, said, written};
use crate::statuses::NUMBERS_REFUSED;
use crate::weighing::{
    bits_of, bounds_of, can_weigh, draws_of, enclosed_of, exact_of, expected_of, limit, masses_of,
    rounds_of, turns_of,
};
use gcl_core::Limits;
use gcl_core::rules::MOST_LIMIT;
use std::alloc::Global;

/// Writes the lines of the masses of the program that a text spells, where the array has room, and tells their length in any
/// case. An `attempts` or `rounds` of 0 is no limit. The status is 0 where there are masses, 1 where the text spells no program,
/// with the code and the place of its refusal, 2 where a limit is out of range, 5 where memory ran out, and 6 where the masses
/// are refused, with the code. Where it is not 0 the array stays as it was.
#[unsafe(no_mangle)]
pub extern "C" fn zar_mass(
    alloc: Global,
    text: &[u8],
    turns: u64,
    attempts: u64,
    rounds: u64,
    lines: &mut [u8],
) -> ZarSaid
    ensures { IsReply (Spells text.now) (SpellsNone text.now) (CanWeigh turns attempts rounds)
        (λ p. AreMassLines p turns (limit_of attempts) (limit_of rounds) 0)
        (λ p. WhyNoMasses p turns (limit_of attempts) (limit_of rounds)) lines.old lines.new result }
{
    if !can_weigh(turns, attempts, rounds) {
        return said(NUMBERS_REFUSED);
    }
    match masses_of(alloc, text, turns, limit(attempts), limit(rounds)) {
        Ok(told) => written(told.bytes(), lines),
        Err(said) => said,
    }
}

/// The same of the bounds of the program's values and faults at this limit of turns.
#[unsafe(no_mangle)]
pub extern "C" fn zar_posterior(alloc: Global, text: &[u8], turns: u64, lines: &mut [u8]) -> ZarSaid
    ensures { IsReply (Spells text.now) (SpellsNone text.now) (turns ≤ MOST_LIMIT)
        (λ p. AreBoundLines p turns 0) (λ p. WhyNoBounds p turns) lines.old lines.new result }
{
    if turns > MOST_LIMIT {
        return said(NUMBERS_REFUSED);
    }
    match bounds_of(alloc, text, turns) {
        Ok(told) => written(told.bytes(), lines),
        Err(said) => said,
    }
}

/// The same of fractions between which the program's masses lie; with `all_turns`, at every greater limit of turns too.
#[unsafe(no_mangle)]
pub extern "C" fn zar_enclose(
    alloc: Global,
    text: &[u8],
    turns: u64,
    attempts: u64,
    rounds: u64,
    all_turns: bool,
    lines: &mut [u8],
) -> ZarSaid
    ensures { IsReply (Spells text.now) (SpellsNone text.now) (CanWeigh turns attempts rounds)
        (λ p. AreEnclosedLines p turns (limit_of attempts) (limit_of rounds) all_turns 0)
        (λ p. WhyNotEnclosed p turns (limit_of attempts) (limit_of rounds)) lines.old lines.new result }
{
    if !can_weigh(turns, attempts, rounds) {
        return said(NUMBERS_REFUSED);
    }
    match enclosed_of(
        alloc,
        text,
        turns,
        limit(attempts),
        limit(rounds),
        all_turns,
    ) {
        Ok(told) => written(told.bytes(), lines),
        Err(said) => said,
    }
}

/// The same of the program's masses where nothing is limited, and of what never ends.
#[unsafe(no_mangle)]
pub extern "C" fn zar_exact(alloc: Global, text: &[u8], lines: &mut [u8]) -> ZarSaid
    ensures { IsReply (Spells text.now) (SpellsNone text.now) NoNumbers (λ p. AreExactLines p 0) WhyNotExact lines.old lines.new result }
{
    match exact_of(alloc, text) {
        Ok(told) => written(told.bytes(), lines),
        Err(said) => said,
    }
}

/// The same of the bits that a run of the program reads on average under limits.
#[unsafe(no_mangle)]
pub extern "C" fn zar_cost(
    alloc: Global,
    text: &[u8],
    turns: u64,
    attempts: u64,
    rounds: u64,
    lines: &mut [u8],
) -> ZarSaid
    ensures { IsReply (Spells text.now) (SpellsNone text.now) (InRange (limits_by turns attempts rounds))
        (λ p. IsBitLine p (limits_by turns attempts rounds) 0)
        (λ p. WhyNoBits p (limits_by turns attempts rounds)) lines.old lines.new result }
{
    let l = Limits {
        turns,
        attempts,
        rounds,
    };
    if !is_in_range(&l) {
        return said(NUMBERS_REFUSED);
    }
    match bits_of(alloc, text, &l) {
        Ok(told) => written(told.bytes(), lines),
        Err(said) => said,
    }
}

/// The same of those that it reads where nothing is limited, or of there being no bound.
#[unsafe(no_mangle)]
pub extern "C" fn zar_cost_in_the_limit(alloc: Global, text: &[u8], lines: &mut [u8]) -> ZarSaid
    ensures { IsReply (Spells text.now) (SpellsNone text.now) NoNumbers
        (λ p. IsExpectedLine p 0) WhyNotExpected lines.old lines.new result }
{
    match expected_of(alloc, text) {
        Ok(told) => written(told.bytes(), lines),
        Err(said) => said,
    }
}

/// The same of the rounds that a run of the program begins where nothing is limited, or of there being no bound.
#[unsafe(no_mangle)]
pub extern "C" fn zar_rounds_in_the_limit(alloc: Global, text: &[u8], lines: &mut [u8]) -> ZarSaid
    ensures { IsReply (Spells text.now) (SpellsNone text.now) NoNumbers
        (λ p. IsRoundsLine p 0) WhyNotExpected lines.old lines.new result }
{
    match rounds_of(alloc, text) {
        Ok(told) => written(told.bytes(), lines),
        Err(said) => said,
    }
}

/// The same of the draws that it makes, or that their number is unknown, which says nothing of the program. The status is never 6.
#[unsafe(no_mangle)]
pub extern "C" fn zar_draws_in_the_limit(alloc: Global, text: &[u8], lines: &mut [u8]) -> ZarSaid
    ensures { IsReply (Spells text.now) (SpellsNone text.now) NoNumbers
        (λ p. IsDrawsLine p 0) (λ p. NoCode) lines.old lines.new result }
{
    match draws_of(alloc, text) {
        Ok(told) => written(told.bytes(), lines),
        Err(said) => said,
    }
}

/// The same of the turns of loops that it makes, likewise.
#[unsafe(no_mangle)]
pub extern "C" fn zar_turns_in_the_limit(alloc: Global, text: &[u8], lines: &mut [u8]) -> ZarSaid
    ensures { IsReply (Spells text.now) (SpellsNone text.now) NoNumbers
        (λ p. IsTurnsLine p 0) (λ p. NoCode) lines.old lines.new result }
{
    match turns_of(alloc, text) {
        Ok(told) => written(told.bytes(), lines),
        Err(said) => said,
    }
}
