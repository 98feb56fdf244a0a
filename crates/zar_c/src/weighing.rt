// The lines about the program of a text.

ghost use Rattle.std.specs.Prelude.{◌≡◌, ◌≤◌, ◌↔◌, None, IfOk, IfErr, IfSome, IsTrue};
ghost use Rattle.gcl_core.specs.declared.rules.TheConstants.{MOST_LIMIT};
ghost use Rattle.gcl_core.specs.meaning.LimitRange.{InRange};
ghost use Rattle.gcl_core.specs.meaning.Syntax.{SourceProgram};
ghost use Rattle.gcl_core.specs.text.Texts.{Spells, SpellsNone};
ghost use Rattle.mass_fold.specs.Refused.{IsLimit};
ghost use Rattle.mass_lines.specs.BitLines.{IsBitLine};
ghost use Rattle.mass_lines.specs.BoundLines.{AreBoundLines};
ghost use Rattle.mass_lines.specs.EnclosedLines.{AreEnclosedLines};
ghost use Rattle.mass_lines.specs.ExactLines.{AreExactLines};
ghost use Rattle.mass_lines.specs.ExpectedLines.{IsExpectedLine};
ghost use Rattle.mass_lines.specs.HowLongLines.{IsRoundsLine, IsDrawsLine, IsTurnsLine};
ghost use Rattle.mass_lines.specs.MassLines.{AreMassLines};
ghost use Rattle.mass_lines.specs.Reasons.{NoCode, WhyNoBits, WhyNoBounds, WhyNoMasses, WhyNotEnclosed, WhyNotExact, WhyNotExpected};
ghost use Rattle.zar_c.specs.Masses.{CanWeigh, limit_of};
ghost use Rattle.zar_c.specs.inner.Refusing.{IsToldReason, IsRefusal};

use crate::said::{ZarSaid, reason, refused, said};
use crate::statuses::OUT_OF_MEMORY;
use gcl_core::Limits;
use gcl_core::rules::MOST_LIMIT;
use gcl_parse::one_reading;
use gcl_print::Text;
use gcl_text::check_text;
use mass_lines::{
    Reason, bits_text, bounds_text, draws_text, enclosed_text, exact_text, expected_text,
    masses_text, rounds_text, turns_text,
};
use report_text::Decimals;
use std::alloc::Global;

// Whether masses can be worked out under these limits.
pub(crate) fn can_weigh(turns: u64, attempts: u64, rounds: u64) -> bool
    ensures { IsTrue result ↔ CanWeigh turns attempts rounds }
{
    turns <= MOST_LIMIT && attempts <= MOST_LIMIT && rounds <= MOST_LIMIT
}

// The limit that a number stands for.
pub(crate) fn limit(n: u64) -> Option<u64>
    requires { n ≤ MOST_LIMIT }
    ensures limit { result ≡ limit_of n }
    ensures range { IfSome result IsLimit }
{
    if n == 0 { None } else { Some(n) }
}

// Why lines are refused.
fn told(why: Reason) -> ZarSaid
    ensures { IsToldReason why result }
{
    match why {
        Reason::Coded(code) => reason(code),
        Reason::Memory => said(OUT_OF_MEMORY),
    }
}

// The lines of the masses of the program that a text spells.
pub(crate) fn masses_of(
    alloc: Global,
    text: &[u8],
    turns: u64,
    attempts: Option<u64>,
    rounds: Option<u64>,
) -> Result<Text, ZarSaid>
    requires turns { turns ≤ MOST_LIMIT }
    requires attempts { IfSome attempts IsLimit }
    requires rounds { IfSome rounds IsLimit }
    ensures lines { IfOk result (λ lines. (p : SourceProgram) → Spells text.now p → AreMassLines p turns attempts rounds 0 lines) }
    ensures there { IfOk result (λ _. (p : SourceProgram) × Spells text.now p) }
    ensures refused { IfErr result
        (IsRefusal (Spells text.now) (SpellsNone text.now) (λ p. WhyNoMasses p turns attempts rounds)) }
{
    one_reading();
    let program = match check_text(alloc, text) {
        Ok(program) => program,
        Err(refusal) => return Err(refused(refusal)),
    };
    match masses_text(alloc, &program, turns, attempts, rounds, Decimals::none()) {
        Ok(lines) => Ok(lines),
        Err(why) => Err(told(why)),
    }
}

// The lines of its bounds.
pub(crate) fn bounds_of(alloc: Global, text: &[u8], turns: u64) -> Result<Text, ZarSaid>
    requires { turns ≤ MOST_LIMIT }
    ensures lines { IfOk result (λ lines. (p : SourceProgram) → Spells text.now p → AreBoundLines p turns 0 lines) }
    ensures there { IfOk result (λ _. (p : SourceProgram) × Spells text.now p) }
    ensures refused { IfErr result (IsRefusal (Spells text.now) (SpellsNone text.now) (λ p. WhyNoBounds p turns)) }
{
    one_reading();
    let program = match check_text(alloc, text) {
        Ok(program) => program,
        Err(refusal) => return Err(refused(refusal)),
    };
    match bounds_text(alloc, &program, turns, Decimals::none()) {
        Ok(lines) => Ok(lines),
        Err(why) => Err(told(why)),
    }
}

// The lines of the fractions between which its masses lie.
pub(crate) fn enclosed_of(
    alloc: Global,
    text: &[u8],
    turns: u64,
    attempts: Option<u64>,
    rounds: Option<u64>,
    all_turns: bool,
) -> Result<Text, ZarSaid>
    requires turns { turns ≤ MOST_LIMIT }
    requires attempts { IfSome attempts IsLimit }
    requires rounds { IfSome rounds IsLimit }
    ensures lines { IfOk result (λ lines. (p : SourceProgram) → Spells text.now p
        → AreEnclosedLines p turns attempts rounds all_turns 0 lines) }
    ensures there { IfOk result (λ _. (p : SourceProgram) × Spells text.now p) }
    ensures refused { IfErr result
        (IsRefusal (Spells text.now) (SpellsNone text.now) (λ p. WhyNotEnclosed p turns attempts rounds)) }
{
    one_reading();
    let program = match check_text(alloc, text) {
        Ok(program) => program,
        Err(refusal) => return Err(refused(refusal)),
    };
    match enclosed_text(
        alloc,
        &program,
        turns,
        attempts,
        rounds,
        all_turns,
        Decimals::none(),
    ) {
        Ok(lines) => Ok(lines),
        Err(why) => Err(told(why)),
    }
}

// The lines of its masses where nothing is limited.
pub(crate) fn exact_of(alloc: Global, text: &[u8]) -> Result<Text, ZarSaid>
    ensures lines { IfOk result (λ lines. (p : SourceProgram) → Spells text.now p → AreExactLines p 0 lines) }
    ensures there { IfOk result (λ _. (p : SourceProgram) × Spells text.now p) }
    ensures refused { IfErr result (IsRefusal (Spells text.now) (SpellsNone text.now) WhyNotExact) }
{
    one_reading();
    let program = match check_text(alloc, text) {
        Ok(program) => program,
        Err(refusal) => return Err(refused(refusal)),
    };
    match exact_text(alloc, &program, Decimals::none()) {
        Ok(lines) => Ok(lines),
        Err(why) => Err(told(why)),
    }
}

// The line of the bits that its runs read on average under limits.
pub(crate) fn bits_of(alloc: Global, text: &[u8], l: &Limits) -> Result<Text, ZarSaid>
    requires { InRange l.now }
    ensures lines { IfOk result (λ lines. (p : SourceProgram) → Spells text.now p → IsBitLine p l.now 0 lines) }
    ensures there { IfOk result (λ _. (p : SourceProgram) × Spells text.now p) }
    ensures refused { IfErr result (IsRefusal (Spells text.now) (SpellsNone text.now) (λ p. WhyNoBits p l.now)) }
{
    one_reading();
    let program = match check_text(alloc, text) {
        Ok(program) => program,
        Err(refusal) => return Err(refused(refusal)),
    };
    match bits_text(alloc, &program, l, Decimals::none()) {
        Ok(lines) => Ok(lines),
        Err(why) => Err(told(why)),
    }
}

// The line of those that they read where nothing is limited.
pub(crate) fn expected_of(alloc: Global, text: &[u8]) -> Result<Text, ZarSaid>
    ensures lines { IfOk result (λ lines. (p : SourceProgram) → Spells text.now p → IsExpectedLine p 0 lines) }
    ensures there { IfOk result (λ _. (p : SourceProgram) × Spells text.now p) }
    ensures refused { IfErr result (IsRefusal (Spells text.now) (SpellsNone text.now) WhyNotExpected) }
{
    one_reading();
    let program = match check_text(alloc, text) {
        Ok(program) => program,
        Err(refusal) => return Err(refused(refusal)),
    };
    match expected_text(alloc, &program, Decimals::none()) {
        Ok(lines) => Ok(lines),
        Err(why) => Err(told(why)),
    }
}

// The line of the rounds that they begin where nothing is limited.
pub(crate) fn rounds_of(alloc: Global, text: &[u8]) -> Result<Text, ZarSaid>
    ensures lines { IfOk result (λ lines. (p : SourceProgram) → Spells text.now p → IsRoundsLine p 0 lines) }
    ensures there { IfOk result (λ _. (p : SourceProgram) × Spells text.now p) }
    ensures refused { IfErr result (IsRefusal (Spells text.now) (SpellsNone text.now) WhyNotExpected) }
{
    one_reading();
    let program = match check_text(alloc, text) {
        Ok(program) => program,
        Err(refusal) => return Err(refused(refusal)),
    };
    match rounds_text(alloc, &program, Decimals::none()) {
        Ok(lines) => Ok(lines),
        Err(why) => Err(told(why)),
    }
}

// The line of the draws that they make where nothing is limited.
pub(crate) fn draws_of(alloc: Global, text: &[u8]) -> Result<Text, ZarSaid>
    ensures lines { IfOk result (λ lines. (p : SourceProgram) → Spells text.now p → IsDrawsLine p 0 lines) }
    ensures there { IfOk result (λ _. (p : SourceProgram) × Spells text.now p) }
    ensures refused { IfErr result (IsRefusal (Spells text.now) (SpellsNone text.now) (λ p. NoCode)) }
{
    one_reading();
    let program = match check_text(alloc, text) {
        Ok(program) => program,
        Err(refusal) => return Err(refused(refusal)),
    };
    match draws_text(alloc, &program, Decimals::none()) {
        Ok(lines) => Ok(lines),
        Err(why) => Err(told(why)),
    }
}

// The line of the turns of loops that they make where nothing is limited.
pub(crate) fn turns_of(alloc: Global, text: &[u8]) -> Result<Text, ZarSaid>
    ensures lines { IfOk result (λ lines. (p : SourceProgram) → Spells text.now p → IsTurnsLine p 0 lines) }
    ensures there { IfOk result (λ _. (p : SourceProgram) × Spells text.now p) }
    ensures refused { IfErr result (IsRefusal (Spells text.now) (SpellsNone text.now) (λ p. NoCode)) }
{
    one_reading();
    let program = match check_text(alloc, text) {
        Ok(program) => program,
        Err(refusal) => return Err(refused(refusal)),
    };
    match turns_text(alloc, &program, Decimals::none()) {
        Ok(lines) => Ok(lines),
        Err(why) => Err(told(why)),
    }
}
