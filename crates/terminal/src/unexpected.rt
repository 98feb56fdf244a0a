//! What is wrong at a token that is refused.

use crate::confusions::{confused, wanted_here};
use crate::missing::{SEMICOLON, in_place_of, missing_before};
use crate::nearest::Nearest;
use crate::repairs::Finding;
use crate::tokens::{begins_statement, is_set_at, word_of};
use gcl_core::{KEYWORDS, Sym, Token, TokenKind};
use gcl_lex::lex;
use gcl_parse::parse;
use std::alloc::{AllocError, Global};

const NOTHING_FOLLOWS: &str = "nothing follows the result";

const NO_BLOCK_OPEN: &str = "no block is open here that this '}' could close";

const NO_BRACKET_OPEN: &str = "no bracket is open here that this ')' could close";

// How many of the tokens before a place open what is not closed before it.
fn open_before(tokens: &[Token], index: usize, left: Sym, right: Sym) -> usize {
    let mut open: usize = 0;
    for token in tokens.iter().take(index) {
        if token.kind == TokenKind::Sym(left) {
            open = open.saturating_add(1);
        }
        if token.kind == TokenKind::Sym(right) {
            open = open.saturating_sub(1);
        }
    }
    open
}

// What is said of a token that closes nothing, or stands behind the end.
fn beyond_end(
    alloc: Global,
    text: &[u8],
    tokens: &[Token],
    index: usize,
) -> Result<Option<&'static str>, AllocError> {
    let Some(token) = tokens.get(index) else {
        return Ok(None);
    };
    if token.kind == TokenKind::Sym(Sym::RightBrace)
        && open_before(tokens, index, Sym::LeftBrace, Sym::RightBrace) == 0
    {
        return Ok(Some(NO_BLOCK_OPEN));
    }
    if token.kind == TokenKind::Sym(Sym::RightParen)
        && open_before(tokens, index, Sym::LeftParen, Sym::RightParen) == 0
    {
        return Ok(Some(NO_BRACKET_OPEN));
    }
    let front = text.get(..token.start as usize).unwrap_or(text);
    match lex(alloc, front) {
        Ok(before) if parse(alloc, front, before.as_slice()).is_ok() => Ok(Some(NOTHING_FOLLOWS)),
        _ => Ok(None),
    }
}

// The reserved name that was meant by a name with which a statement begins.
fn reserved<'t>(alloc: Global, word: &'t str) -> Result<Nearest<'t>, AllocError> {
    let mut nearest = Nearest::to(word);
    for (name, _) in &KEYWORDS {
        nearest = nearest.offer(alloc, name)?;
    }
    Ok(nearest)
}

// What is said of a name with which a statement begins, and which was meant for a reserved one.
fn misspelled(
    alloc: Global,
    text: &[u8],
    tokens: &[Token],
    index: usize,
) -> Result<Option<String>, AllocError> {
    let first = index.saturating_sub(1);
    let Some(name) = tokens.get(first) else {
        return Ok(None);
    };
    if index == 0 || name.kind != TokenKind::Name || !begins_statement(tokens, first) {
        return Ok(None);
    }
    let word = word_of(text, name);
    let question = reserved(alloc, word)?.question(alloc)?;
    if question.is_empty() {
        return Ok(None);
    }
    Ok(Some(format!(in alloc; "'{word}' begins no statement of this form{question}")?))
}

// The reserved name that is used as a variable at this place.
fn of_reserved(
    alloc: Global,
    text: &[u8],
    tokens: &[Token],
    index: usize,
) -> Result<Option<String>, AllocError> {
    for i in index.saturating_sub(1)..index.saturating_add(1) {
        let Some(token) = tokens.get(i) else {
            continue;
        };
        if matches!(token.kind, TokenKind::Key(_))
            && is_set_at(tokens, i)
            && begins_statement(tokens, i)
        {
            let word = word_of(text, token);
            return Ok(Some(format!(in alloc;
                "'{word}' is a reserved name, and no variable has it"
            )?));
        }
    }
    Ok(None)
}

// What is said of a token itself.
fn of_token(
    alloc: Global,
    text: &[u8],
    tokens: &[Token],
    index: usize,
) -> Result<Option<&'static str>, AllocError> {
    if let Some(said) = beyond_end(alloc, text, tokens, index)? {
        return Ok(Some(said));
    }
    if let Some(token) = tokens.get(index) {
        if let Some(said) = in_place_of(alloc, text, token)? {
            return Ok(Some(said));
        }
    }
    Ok(confused(text, tokens, index))
}

// What is missing behind the token before this place.
fn behind_last(
    alloc: Global,
    tokens: &[Token],
    index: usize,
    said: &str,
) -> Result<Finding, AllocError> {
    let from = match tokens.get(index.saturating_sub(1)) {
        Some(token) => token.end as usize,
        None => 0,
    };
    Ok(Finding {
        from,
        length: 1,
        said: String::from_str(alloc, said)?,
    })
}

// What is said of the token at this place, where it or those around it tell.
fn told(
    alloc: Global,
    text: &[u8],
    tokens: &[Token],
    index: usize,
) -> Result<Option<String>, AllocError> {
    if let Some(said) = of_reserved(alloc, text, tokens, index)? {
        return Ok(Some(said));
    }
    match of_token(alloc, text, tokens, index)? {
        Some(said) => Ok(Some(String::from_str(alloc, said)?)),
        None => misspelled(alloc, text, tokens, index),
    }
}

/// What is wrong at a token, and what would be right.
pub fn unexpected(
    alloc: Global,
    text: &[u8],
    tokens: &[Token],
    index: usize,
    at: usize,
) -> Result<Finding, AllocError> {
    let said = match told(alloc, text, tokens, index)? {
        Some(said) => said,
        None => match missing_before(alloc, text, at)? {
            Some((SEMICOLON, said)) => return behind_last(alloc, tokens, index, said),
            Some((_, said)) => String::from_str(alloc, said)?,
            None => String::from_str(alloc, wanted_here(tokens, index))?,
        },
    };
    Ok(Finding::of(text, tokens.get(index), at, said))
}
