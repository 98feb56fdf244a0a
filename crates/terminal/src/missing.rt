//! What would let a program go on, found by trying.

use gcl_core::{Key, Token, TokenKind};
use gcl_lex::lex;
use gcl_parse::{ParseError, parse};
use std::alloc::{AllocError, Global};

/// What is missing where a statement does not end.
pub const SEMICOLON: &str = ";";

/// What is said of another mark than '|' behind an arm.
pub const BETWEEN_ARMS: &str = "'|' stands between two arms of a choose";

// What would let the program go on before the place, or end there, and what is said of it.
const MISSING: [(&str, &str); 11] = [
    (SEMICOLON, "';' is missing here"),
    (")", "')' is missing before this"),
    ("0", "a number or a name is missing before this"),
    (":=", "':=' is missing before this"),
    ("{", "'{' is missing before this"),
    (
        "; return 0;",
        "';' is missing at the end, and the result, return EXPR;",
    ),
    (
        "return 0;",
        "the program ends with its result, return EXPR;",
    ),
    ("} return 0;", "a '}' is missing: a block is open here"),
    ("or {}", "a choice has a second block: or { .. }"),
    ("| 1: {}", "a choose has two arms at least: | 1: { .. }"),
    ("}", "'}' is missing before this: a block is open here"),
];

// A token, what would let the program go on in its place, and what is said of it.
const INSTEAD: [(TokenKind, &str, &str); 3] = [
    (
        TokenKind::Key(Key::Else),
        "or",
        "the second block of a choice follows 'or'",
    ),
    (
        TokenKind::Key(Key::Or),
        "else",
        "the second block of an if follows 'else'",
    ),
    (TokenKind::Key(Key::Or), "|", BETWEEN_ARMS),
];

// With these bytes before the place, and the text going on from `from`, the program is whole, or goes on beyond it.
fn goes_on(
    alloc: Global,
    text: &[u8],
    at: usize,
    missing: &str,
    from: usize,
) -> Result<bool, AllocError> {
    let mut whole = Vec::new(alloc);
    whole.extend_from_slice(text.get(..at).unwrap_or(text))?;
    whole.push(b'\n')?;
    whole.extend_from_slice(missing.as_bytes())?;
    whole.push(b' ')?;
    let beyond = whole.len();
    whole.extend_from_slice(text.get(from..).unwrap_or(b""))?;
    let Ok(tokens) = lex(alloc, whole.as_slice()) else {
        return Ok(false);
    };
    match parse(alloc, whole.as_slice(), tokens.as_slice()) {
        Ok(_) => Ok(true),
        Err(ParseError::Unexpected { at }) => Ok(at as usize > beyond),
        Err(_) => Ok(false),
    }
}

/// What is missing before a place, and what is said of it.
pub fn missing_before(
    alloc: Global,
    text: &[u8],
    at: usize,
) -> Result<Option<(&'static str, &'static str)>, AllocError> {
    for (missing, said) in &MISSING {
        if goes_on(alloc, text, at, missing, at)? {
            return Ok(Some((missing, said)));
        }
    }
    Ok(None)
}

/// What is said of a token in whose place another would be right.
pub fn in_place_of(
    alloc: Global,
    text: &[u8],
    token: &Token,
) -> Result<Option<&'static str>, AllocError> {
    for (kind, right, said) in &INSTEAD {
        if token.kind == *kind
            && goes_on(alloc, text, token.start as usize, right, token.end as usize)?
        {
            return Ok(Some(said));
        }
    }
    Ok(None)
}
