// Reading programs.

ghost use Rattle.std.specs.Prelude.{◌≡◌, ℕ, ◌+◌, ◌<◌, ◌≤◌, List, length, IfOk, IsOk, IfErr, IsOkUnless};
ghost use Rattle.gcl_core.specs.meaning.Syntax.{SourceProgram};
ghost use Rattle.gcl_core.specs.meaning.Views.{source_of};
ghost use Rattle.gcl_core.specs.meaning.Bounds.{BlockCounted, VariablesBelow};
ghost use Rattle.gcl_core.specs.text.StatementCounts.{count_all};
ghost use Rattle.gcl_core.specs.text.Spans.{StandInOrder};
ghost use Rattle.gcl_core.specs.text.Offsets.{place_of};
ghost use Rattle.gcl_core.specs.text.Words.{kinds_of};
ghost use Rattle.gcl_core.specs.text.Derivation.{Derives};
ghost use Rattle.gcl_core.specs.text.Nesting.{Nests};
ghost use Rattle.gcl_core.specs.text.NoNegative.{HasNoNegative};
ghost use Rattle.gcl_core.specs.declared.rules.TheConstants.{LONGEST_TEXT};
ghost use Rattle.gcl_parse.specs.Refused.{IsGrammarRefused};

use crate::beginnings::beginnings;
use crate::error::ParseError;
use crate::nesting::nesting_break;
use crate::offsets::Places;
use crate::parser::{Halt, Parser};
use crate::wording::{Worded, words};
use gcl_core::{Program, Token};
use std::alloc::Global;

/// A program as its text has it, with the places of its statements.
#[derive(Drop)]
pub struct Parsed {
    pub program: Program,
    /// The offset of each statement in reading order, a statement before those of its blocks; that of `return` is last.
    pub places: Places,
}

// The offset of the token of this index, or else the end of the text.
fn place(text: &[u8], tokens: &[Token], i: usize) -> u32
    requires { length text.now ≤ LONGEST_TEXT }
    ensures { result ≡ place_of text.now tokens.now i }
{
    match tokens.get(i) {
        Some(token) => token.start,
        None => text.len() as u32,
    }
}

/// The program that the tokens of a text derive, with its names numbered in the order of their first appearance, and a place for
/// each statement and for `return`.
///
/// `TooDeep` comes exactly where a token breaks the nesting rule, at the first that does, whatever else is wrong. Else
/// `Unexpected` comes exactly where the tokens are no program, at the first with which they begin none, or at the end of the
/// text. `OutOfMemory` comes where memory runs out.
pub fn parse(alloc: Global, text: &[u8], tokens: &[Token]) -> Result<Parsed, ParseError>
    requires short { length text.now ≤ LONGEST_TEXT }
    requires order { StandInOrder 0 tokens.now (length text.now) }
    ensures program { IfOk result (λ p. Derives text.now tokens.now (source_of p.program) p.places) }
    ensures only { IfOk result (λ p. (q : SourceProgram) (at : List ℕ) → Derives text.now tokens.now q at
        → (q ≡ source_of p.program) × (at ≡ p.places)) }
    ensures derived { (q : SourceProgram) (at : List ℕ) → Derives text.now tokens.now q at → Nests (kinds_of tokens.now)
        → IsOkUnless result ParseError.OutOfMemory }
    ensures nested { IsOk result → Nests (kinds_of tokens.now) }
    ensures variables { IfOk result (λ p. VariablesBelow (source_of p.program)) }
    ensures written { IfOk result (λ p. HasNoNegative (source_of p.program)) }
    ensures arms { IfOk result (λ p. BlockCounted (source_of p.program).body) }
    ensures places { IfOk result (λ p. length p.places ≡ count_all (source_of p.program).body + 1) }
    ensures statements { IfOk result (λ p. count_all (source_of p.program).body < length tokens.now) }
    ensures refused { IfErr result (λ e. IsGrammarRefused text.now tokens.now e) }
{
    if let Some(i) = nesting_break(tokens) {
        return Err(ParseError::TooDeep {
            at: place(text, tokens, i),
        });
    }
    let Worded { words, names } = words(alloc, text, tokens)?;
    let mut parser = Parser::new(alloc, &words);
    match parser.program() {
        Ok((body, result)) => {
            let places = Places::of(beginnings(alloc, tokens)?);
            let program = Program {
                names,
                body,
                result,
            };
            Ok(Parsed { program, places })
        }
        Err(Halt::Unexpected) => Err(ParseError::Unexpected {
            at: place(text, tokens, tokens.len() - parser.left()),
        }),
        Err(Halt::OutOfMemory) => Err(ParseError::OutOfMemory),
    }
}
