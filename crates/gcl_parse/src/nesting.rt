// The nesting rule.

ghost use Rattle.std.specs.Prelude.{◌≡◌, ◌≤◌};
ghost use Rattle.gcl_core.specs.text.Nesting as nesting;
ghost use Rattle.gcl_core.specs.declared.rules.TheConstants as rule;
ghost use Rattle.gcl_core.specs.text.Words.{kinds_of};

use gcl_core::{DEEPEST_NESTING, Key, MOST_OPERATORS, Sym, Token, TokenKind};

fn level_behind(kind: TokenKind, level: u32) -> u32
    requires { level ≤ rule.DEEPEST_NESTING }
    ensures { result ≡ nesting.level_behind kind level }
{
    match kind {
        TokenKind::Sym(Sym::LeftParen | Sym::LeftBrace) => level + 1,
        TokenKind::Sym(Sym::RightParen | Sym::RightBrace) => level.saturating_sub(1),
        _ => level,
    }
}

fn count_behind(kind: TokenKind, count: u32) -> u32
    requires { count ≤ rule.MOST_OPERATORS }
    ensures { result ≡ nesting.count_behind kind count }
{
    match kind {
        TokenKind::Sym(sym) => match sym {
            Sym::Semicolon | Sym::LeftBrace | Sym::RightBrace => 0,
            Sym::Assign | Sym::Tilde | Sym::LeftParen | Sym::RightParen | Sym::Colon | Sym::Bar =>
                count,
            _ => count + 1,
        },
        TokenKind::Key(Key::And | Key::Or | Key::Not) => count + 1,
        _ => count,
    }
}

/// The index of the first token that makes the level more than `DEEPEST_NESTING` or the count more than `MOST_OPERATORS`.
pub fn nesting_break(tokens: &[Token]) -> Option<usize>
    ensures { result ≡ nesting.nesting_break (kinds_of tokens.now) }
{
    let mut level = 0;
    let mut count = 0;
    for (i, token) in tokens.iter().enumerate() {
        level = level_behind(token.kind, level);
        count = count_behind(token.kind, count);
        if level > DEEPEST_NESTING || count > MOST_OPERATORS {
            return Some(i);
        }
    }
    None
}
