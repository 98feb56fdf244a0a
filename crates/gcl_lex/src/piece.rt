// What one piece of a text gives.

ghost use Rattle.std.specs.Prelude.{◌≡◌, true, map};
ghost use Rattle.std.specs.List.{list_all};
ghost use Rattle.gcl_core.specs.text.Names.{value_named};
ghost use Rattle.gcl_core.specs.text.Pieces.{is_piece, is_digit};
ghost use Rattle.gcl_core.specs.text.Tokens.{key_of, named_kind};
ghost use Rattle.gcl_lex.specs.inner.Reads.{number_of_digits, ReadsPiece};

use crate::cutting::symbol;
use crate::error::LexError;
use gcl_core::{GREATEST_LITERAL, KEYWORDS, Key, LONGEST_NAME, PieceKind, TokenKind, value_named};

// The value of some digits, or none where it is above `GREATEST_LITERAL`.
fn number(digits: &[u8]) -> Option<u64>
    requires { list_all is_digit digits.now ≡ true }
    ensures { result ≡ number_of_digits digits.now }
{
    let mut value: u64 = 0;
    for digit in digits {
        value = value.checked_mul(10)?.checked_add((*digit - b'0') as u64)?;
    }
    if value <= GREATEST_LITERAL {
        Some(value)
    } else {
        None
    }
}

#[tactic(auto, unfolding(gcl_core::specs::text::Tokens::key_of))]
fn key(name: &[u8]) -> Option<Key>
    ensures { result ≡ key_of name.now }
{
    value_named(&KEYWORDS, name)
}

fn name_kind(name: &[u8]) -> TokenKind
    ensures { result ≡ named_kind (key_of name.now) }
{
    match key(name) {
        Some(key) => TokenKind::Key(key),
        None => TokenKind::Name,
    }
}

/// The kind of the token that a piece gives, none for a blank or a comment; or why a text may not have this piece, which begins
/// at the place `at`.
pub fn token_kind(kind: PieceKind, bytes: &[u8], at: u32) -> Result<Option<TokenKind>, LexError>
    requires { is_piece kind bytes.now ≡ true }
    ensures { ReadsPiece kind bytes.now at result }
{
    match kind {
        PieceKind::Blank | PieceKind::Comment => Ok(None),
        PieceKind::Number => match number(bytes) {
            Some(value) => Ok(Some(TokenKind::Number(value))),
            None => Err(LexError::NumberTooWide { at }),
        },
        PieceKind::Name if bytes.len() > LONGEST_NAME => Err(LexError::NameTooLong { at }),
        PieceKind::Name => Ok(Some(name_kind(bytes))),
        PieceKind::Symbol => Ok(symbol(bytes).map(TokenKind::Sym)),
    }
}
