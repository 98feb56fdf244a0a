//! The tokens around a place.

use gcl_core::{Key, Sym, Token, TokenKind};

/// The kind of a token, or none beyond the ends.
pub type Kind = Option<TokenKind>;

/// The word of a token.
pub fn word_of<'t>(text: &'t [u8], token: &Token) -> &'t str {
    let bytes = text
        .get(token.start as usize..token.end as usize)
        .unwrap_or(b"");
    str::from_utf8(bytes).unwrap_or("")
}

/// The kind of the token so many before this place.
pub fn kind_before(tokens: &[Token], index: usize, count: usize) -> Kind {
    let token = tokens.get(index.checked_sub(count)?)?;
    Some(token.kind)
}

/// A statement begins at this place, as far as the token before it tells.
pub fn begins_statement(tokens: &[Token], index: usize) -> bool {
    match kind_before(tokens, index, 1) {
        None => true,
        Some(TokenKind::Sym(symbol)) => {
            matches!(symbol, Sym::Semicolon | Sym::LeftBrace | Sym::RightBrace)
        }
        Some(_) => false,
    }
}

/// The token at this place is set, as the one behind it tells.
pub fn is_set_at(tokens: &[Token], index: usize) -> bool {
    matches!(
        kind_before(tokens, index.saturating_add(1), 0),
        Some(TokenKind::Sym(Sym::Assign | Sym::Tilde))
    )
}

/// The token is a number.
pub fn is_number(kind: Kind) -> bool {
    matches!(kind, Some(TokenKind::Number(_)))
}

/// The token is this reserved name.
pub fn is_key(kind: Kind, key: Key) -> bool {
    kind == Some(TokenKind::Key(key))
}

/// The token is this symbol.
pub fn is_sym(kind: Kind, sym: Sym) -> bool {
    kind == Some(TokenKind::Sym(sym))
}

/// The token compares two numbers.
pub fn compares(kind: Kind) -> bool {
    match kind {
        Some(TokenKind::Sym(symbol)) => matches!(
            symbol,
            Sym::Equal
                | Sym::NotEqual
                | Sym::Less
                | Sym::LessEqual
                | Sym::Greater
                | Sym::GreaterEqual
        ),
        _ => false,
    }
}

/// The token stands between two numbers.
pub fn operates(kind: Kind) -> bool {
    match kind {
        Some(TokenKind::Sym(symbol)) => matches!(
            symbol,
            Sym::Plus | Sym::Minus | Sym::Star | Sym::Slash | Sym::Percent
        ) || compares(kind),
        _ => false,
    }
}

/// A number or a truth may end with the token.
pub fn ends_operand(kind: Kind) -> bool {
    match kind {
        Some(TokenKind::Number(_) | TokenKind::Name) => true,
        Some(TokenKind::Sym(symbol)) => symbol == Sym::RightParen,
        Some(TokenKind::Key(key)) => matches!(key, Key::True | Key::False),
        None => false,
    }
}
