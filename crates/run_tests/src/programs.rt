// Programs of the tests, by their texts.

use gcl_check::check;
use gcl_core::{Checked, LONGEST_TEXT, Limits};
use gcl_lex::lex;
use gcl_parse::parse;
use sampler_run::{Sampler, compile};
use std::alloc::Global;
use std::test::Fail;

pub(crate) const LIMITS: Limits = Limits {
    turns: 1000,
    attempts: 1000,
    rounds: 1000,
};

pub(crate) const TWO_THIRDS: &str = "choice 2/3 { x := 1; } or { x := 2; } return x;";

pub(crate) const GEOMETRIC: &str =
    "go := 1; while go = 1 { choice 1/2 { x := x + 1; } or { go := 0; } } return x;";

pub(crate) const DIE: &str = "x ~ uniform(6); return x;";

// The program that a text spells.
pub(crate) fn program(alloc: Global, text: &str) -> Result<Checked, Fail> {
    let bytes = text.as_bytes();
    let tokens = lex(alloc, bytes)?;
    if tokens.len() > LONGEST_TEXT {
        return Err(Fail::from("a text with too many tokens"));
    }
    let parsed = parse(alloc, bytes, tokens.as_slice())?;
    Ok(check(parsed.program)?)
}

// The sampler of the program that a text spells.
pub(crate) fn sampler(alloc: Global, text: &str) -> Result<Sampler, Fail> {
    Ok(compile(alloc, &program(alloc, text)?)?)
}
