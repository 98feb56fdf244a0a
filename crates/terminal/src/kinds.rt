//! What is wrong where a number stands for a truth, or a truth for a number.

use crate::repairs::Finding;
use crate::tokens::kind_before;
use gcl_core::refusals::KIND_MISMATCH;
use gcl_core::{Key, Sym, Token, TokenKind};
use gcl_text::{TextRefusal, check_text};
use std::alloc::{AllocError, Global};

const TAKES_TRUTH: &str =
    "if, while and observe take a truth, as x = 1; not, and and or take truths, all else numbers";

const TAKES_NUMBER: &str =
    "a number is wanted; if a < b { x := 1; } else { x := 0; } keeps a truth";

// The most tokens of a statement of which the one is sought that does not fit: for each the whole text is checked.
const MOST_TRIED: usize = 64;

// What the statement at this place takes.
fn kind_wanted(tokens: &[Token], index: usize) -> &'static str {
    match kind_before(tokens, index, 0) {
        Some(TokenKind::Key(Key::If | Key::While | Key::Observe)) => TAKES_TRUTH,
        _ => TAKES_NUMBER,
    }
}

// Whether with these bytes in the place of a token the statement at `at` is refused for its kinds no more.
fn mends_kind(
    alloc: Global,
    text: &[u8],
    token: &Token,
    instead: &str,
    at: usize,
) -> Result<bool, AllocError> {
    let mut whole = Vec::new(alloc);
    whole.extend_from_slice(text.get(..token.start as usize).unwrap_or(text))?;
    whole.extend_from_slice(instead.as_bytes())?;
    whole.extend_from_slice(text.get(token.end as usize..).unwrap_or(b""))?;
    match check_text(alloc, whole.as_slice()) {
        Ok(_) => Ok(true),
        Err(TextRefusal::Coded(KIND_MISMATCH, Some(place))) => Ok(place as usize != at),
        Err(TextRefusal::Coded(code, _)) => Ok(code > KIND_MISMATCH),
        Err(TextRefusal::OutOfMemory) => Ok(false),
    }
}

// The token of the statement at this place that alone is of another kind than is wanted, and what is wanted there.
fn other_operand<'t>(
    alloc: Global,
    text: &[u8],
    tokens: &'t [Token],
    index: usize,
    at: usize,
) -> Result<Option<(&'t Token, &'static str)>, AllocError> {
    for token in tokens.iter().skip(index.saturating_add(1)).take(MOST_TRIED) {
        let (instead, said) = match token.kind {
            TokenKind::Sym(Sym::Semicolon | Sym::LeftBrace) => return Ok(None),
            TokenKind::Number(_) | TokenKind::Name => (
                "(0 = 0)",
                "a truth is wanted here, as x = 1",
            ),
            TokenKind::Key(Key::True | Key::False) => ("0", "a number is wanted here"),
            _ => continue,
        };
        if mends_kind(alloc, text, token, instead, at)? {
            return Ok(Some((token, said)));
        }
    }
    Ok(None)
}

/// What is wrong with the statement at this place, whose kinds do not fit: with one of its operands, or with the whole.
pub fn other_kind(
    alloc: Global,
    text: &[u8],
    tokens: &[Token],
    index: usize,
    at: usize,
) -> Result<Finding, AllocError> {
    let (token, said) = match other_operand(alloc, text, tokens, index, at)? {
        Some((token, said)) => (Some(token), said),
        None => (tokens.get(index), kind_wanted(tokens, index)),
    };
    Ok(Finding::of(text, token, at, String::from_str(alloc, said)?))
}
