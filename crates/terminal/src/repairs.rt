//! What is wrong at a place of a text, and what would be right.

use crate::bytes::bad_bytes;
use crate::kinds::other_kind;
use crate::nearest::Nearest;
use crate::tokens::{is_set_at, word_of};
use crate::unexpected::unexpected;
use gcl_core::refusals::{BAD_BYTE, KIND_MISMATCH, UNEXPECTED, UNKNOWN_NAME};
use gcl_core::{LONGEST_TEXT, Token, TokenKind};
use gcl_lex::lex;
use std::alloc::{AllocError, Global};

/// What is wrong with the bytes of a text from `from` on, `length` many.
#[derive(Drop)]
pub struct Finding {
    pub from: usize,
    pub length: usize,
    pub said: String,
}

impl Finding {
    /// Of a token, or of one byte at the place where there is none.
    pub fn of(text: &[u8], token: Option<&Token>, at: usize, said: String) -> Finding {
        let (from, length) = match token {
            Some(token) => (token.start as usize, word_of(text, token).len()),
            None => (at, 1),
        };
        Finding { from, length, said }
    }
}

// A statement sets the name.
fn is_set(text: &[u8], tokens: &[Token], name: &str) -> bool {
    tokens.iter().enumerate().any(|(i, token)| word_of(text, token) == name && is_set_at(tokens, i))
}

// The nearest of the names that statements set.
fn nearest_set<'t>(
    alloc: Global,
    text: &'t [u8],
    tokens: &[Token],
    name: &'t str,
) -> Result<Nearest<'t>, AllocError> {
    let mut nearest = Nearest::to(name);
    for token in tokens {
        let word = word_of(text, token);
        if token.kind == TokenKind::Name && is_set(text, tokens, word) {
            nearest = nearest.offer(alloc, word)?;
        }
    }
    Ok(nearest)
}

// The first name of the statement at this place that none sets.
fn unknown(
    alloc: Global,
    text: &[u8],
    tokens: &[Token],
    index: usize,
) -> Result<Option<Finding>, AllocError> {
    for token in tokens.iter().skip(index) {
        let name = word_of(text, token);
        if token.kind == TokenKind::Name && !is_set(text, tokens, name) {
            let question = nearest_set(alloc, text, tokens, name)?.question(alloc)?;
            return Ok(Some(Finding {
                from: token.start as usize,
                length: name.len(),
                said: format!(in alloc; "'{name}' is never set{question}")?,
            }));
        }
    }
    Ok(None)
}

// What is wrong with a byte.
fn bad_byte(alloc: Global, text: &[u8], at: usize) -> Result<Option<Finding>, AllocError> {
    let Ok(tokens) = lex(alloc, text.get(..at).unwrap_or(text)) else {
        return Ok(None);
    };
    match bad_bytes(text.get(at..).unwrap_or(b""), tokens.as_slice()) {
        Some(said) => Ok(Some(Finding {
            from: at,
            length: 1,
            said: String::from_str(alloc, said)?,
        })),
        None => Ok(None),
    }
}

/// What is wrong at the place of a refusal with this code, where more is known than what the code says.
pub fn find_wrong(
    alloc: Global,
    text: &[u8],
    code: u8,
    at: usize,
) -> Result<Option<Finding>, AllocError> {
    if text.len() > LONGEST_TEXT {
        return Ok(None);
    }
    if code == BAD_BYTE {
        return bad_byte(alloc, text, at);
    }
    let Ok(tokens) = lex(alloc, text) else {
        return Ok(None);
    };
    let tokens = tokens.as_slice();
    let index = tokens
        .iter()
        .position(|token| token.start as usize == at)
        .unwrap_or(tokens.len());
    match code {
        UNEXPECTED => Ok(Some(unexpected(alloc, text, tokens, index, at)?)),
        KIND_MISMATCH => Ok(Some(other_kind(alloc, text, tokens, index, at)?)),
        UNKNOWN_NAME => unknown(alloc, text, tokens, index),
        _ => Ok(None),
    }
}
