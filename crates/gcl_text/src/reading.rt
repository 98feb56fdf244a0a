// From the bytes of a text to its program.

ghost use Rattle.std.specs.Prelude.{◌≡◌, ◌-◌, ◌^◌, ◌<◌, Some, IfOk, length};
ghost use Rattle.std.specs.List.{slice_get};
ghost use Rattle.gcl_core.specs.meaning.Views.{source_of};
ghost use Rattle.gcl_core.specs.meaning.Bounds.{VariablesBelow, BlockCounted};
ghost use Rattle.gcl_core.specs.text.StatementCounts.{count_all};
ghost use Rattle.gcl_check.specs.Refused.{refusal_said};
ghost use Rattle.gcl_text.specs.Readings.{Writes, Checks};
ghost use Rattle.gcl_text.specs.inner.Codes.{lex_code, parse_code, check_code, HasPlace};

use crate::refusing::TextRefusal;
use gcl_check::{CheckError, check};
use gcl_core::{Checked, refusals};
use gcl_lex::{LexError, lex};
use gcl_parse::{ParseError, Parsed, Places, parse};
use std::alloc::Global;

// A refusal of the text with this code, at this place.
fn coded(code: u8, at: u32) -> TextRefusal
    ensures { result ≡ TextRefusal.Coded code (Some at) }
{
    TextRefusal::Coded(code, Some(at))
}

fn lex_refusal(error: LexError) -> TextRefusal
    ensures { result ≡ lex_code error }
{
    match error {
        LexError::TextTooLong => TextRefusal::Coded(refusals::TEXT_TOO_LONG, None),
        LexError::BadByte { at } => coded(refusals::BAD_BYTE, at),
        LexError::NumberTooWide { at } => coded(refusals::NUMBER_TOO_WIDE, at),
        LexError::NameTooLong { at } => coded(refusals::NAME_TOO_LONG, at),
        LexError::OutOfMemory => TextRefusal::OutOfMemory,
    }
}

fn parse_refusal(error: ParseError) -> TextRefusal
    ensures { result ≡ parse_code error }
{
    match error {
        ParseError::Unexpected { at } => coded(refusals::UNEXPECTED, at),
        ParseError::TooDeep { at } => coded(refusals::TOO_DEEP, at),
        ParseError::OutOfMemory => TextRefusal::OutOfMemory,
    }
}

/// The program that a text has as it is written, with the places of its statements; or the code for which it has none, and the
/// place. `OutOfMemory` comes where memory runs out.
pub fn parse_text(alloc: Global, text: &[u8]) -> Result<Parsed, TextRefusal>
    ensures written { Writes text.now result }
    ensures variables { IfOk result (λ p. VariablesBelow (source_of p.program)) }
    ensures arms { IfOk result (λ p. BlockCounted (source_of p.program).body) }
    ensures count { IfOk result (λ p. count_all (source_of p.program).body < 2 ^ 32 - 1) }
{
    let tokens = match lex(alloc, text) {
        Ok(tokens) => tokens,
        Err(error) => return Err(lex_refusal(error)),
    };
    match parse(alloc, text, tokens.as_slice()) {
        Ok(parsed) => Ok(parsed),
        Err(error) => Err(parse_refusal(error)),
    }
}

// The place of the statement with this number.
fn place_of(places: &Places, stmt: u32) -> Option<u32>
    requires { stmt < length places.now }
    ensures { result ≡ slice_get places.now stmt }
{
    Some(*places.get(stmt as usize))
}

fn check_refusal(error: CheckError, places: &Places) -> TextRefusal
    requires { HasPlace (refusal_said error) places.now }
    ensures { result ≡ check_code places.now (refusal_said error) }
{
    match error {
        CheckError::TooManyNames => TextRefusal::Coded(refusals::TOO_MANY_NAMES, None),
        CheckError::KindMismatch { stmt } => {
            TextRefusal::Coded(refusals::KIND_MISMATCH, place_of(places, stmt))
        }
        CheckError::UnknownName { stmt } => {
            TextRefusal::Coded(refusals::UNKNOWN_NAME, place_of(places, stmt))
        }
        CheckError::ZeroDenominator { stmt } => {
            TextRefusal::Coded(refusals::ZERO_DENOMINATOR, place_of(places, stmt))
        }
        CheckError::WeightAboveOne { stmt } => {
            TextRefusal::Coded(refusals::WEIGHT_ABOVE_ONE, place_of(places, stmt))
        }
        CheckError::TooFine { stmt } => {
            TextRefusal::Coded(refusals::TOO_FINE, place_of(places, stmt))
        }
    }
}

/// The checked program that a text spells, or the code for which it spells none, and the place. A refusal of the text as it is
/// written comes before those of the check. `OutOfMemory` comes where memory runs out.
pub fn check_text(alloc: Global, text: &[u8]) -> Result<Checked, TextRefusal>
    ensures spelled { Checks text.now result }
    ensures statements { IfOk result (λ p. count_all (source_of p).body < 2 ^ 32 - 1) }
{
    let parsed = parse_text(alloc, text)?;
    match check(parsed.program) {
        Ok(checked) => Ok(checked),
        Err(error) => Err(check_refusal(error, &parsed.places)),
    }
}
