// Where statements begin.

ghost use Rattle.std.specs.Prelude.{◌≡◌, IfOk};
ghost use Rattle.gcl_core.specs.text.Words.{kinds_of};
ghost use Rattle.gcl_parse.specs.inner.Beginnings as beginning;

use gcl_core::{Key, Sym, Token, TokenKind};
use std::alloc::{AllocError, Global};

// A name before these tokens begins an assignment or a draw.
fn sets_before(tokens: &[Token]) -> bool
    ensures { result ≡ beginning.sets_before (kinds_of tokens.now) }
{
    match tokens.first() {
        Some(token) => matches!(token.kind, TokenKind::Sym(Sym::Assign | Sym::Tilde)),
        None => false,
    }
}

// A statement, or `return`, begins with a token of this kind, where these tokens stand behind it.
fn begins(kind: TokenKind, behind: &[Token]) -> bool
    ensures { result ≡ beginning.begins kind (kinds_of behind.now) }
{
    match kind {
        TokenKind::Key(
            Key::Skip
            | Key::Observe
            | Key::If
            | Key::While
            | Key::Choice
            | Key::Choose
            | Key::Return,
        ) => true,
        TokenKind::Name => sets_before(behind),
        _ => false,
    }
}

/// The places where statements and `return` begin.
pub fn beginnings(alloc: Global, tokens: &[Token]) -> Result<Vec<u32>, AllocError>
    ensures { IfOk result (λ v. v.items ≡ beginning.beginnings tokens.now) }
{
    let mut places = Vec::new(alloc);
    let mut rest = tokens;
    while let Some((token, behind)) = rest.split_first() {
        if begins(token.kind, behind) {
            places.push(token.start)?;
        }
        rest = behind;
    }
    Ok(places)
}
