// Tokens of texts, and texts that have none.

use crate::filling::filled;
use gcl_core::{Key, Sym, TokenKind};
use gcl_lex::{LexError, lex};
use std::alloc::{AllocError, Global};
use std::test::Fail;

type Spanned = (TokenKind, u32, u32);

const TOKENS: [(&'static [u8], &'static [Spanned]); 11] = [
    (b"", &[]),
    (
        b"12ab",
        &[(TokenKind::Number(12), 0, 2), (TokenKind::Name, 2, 4)],
    ),
    (b"007", &[(TokenKind::Number(7), 0, 3)]),
    (
        b" 009223372036854775807",
        &[(TokenKind::Number(9_223_372_036_854_775_807), 1, 22)],
    ),
    (
        b"a<=b",
        &[
            (TokenKind::Name, 0, 1),
            (TokenKind::Sym(Sym::LessEqual), 1, 3),
            (TokenKind::Name, 3, 4),
        ],
    ),
    (
        b"< =",
        &[
            (TokenKind::Sym(Sym::Less), 0, 1),
            (TokenKind::Sym(Sym::Equal), 2, 3),
        ],
    ),
    (
        b"x:=1#\xff\x00?!",
        &[
            (TokenKind::Name, 0, 1),
            (TokenKind::Sym(Sym::Assign), 1, 3),
            (TokenKind::Number(1), 3, 4),
        ],
    ),
    (b"#a\n\t \rb", &[(TokenKind::Name, 6, 7)]),
    (
        b"Skip skip1 _",
        &[
            (TokenKind::Name, 0, 4),
            (TokenKind::Name, 5, 10),
            (TokenKind::Name, 11, 12),
        ],
    ),
    (
        b"skip if else while choice choose or and not true false uniform observe return",
        &[
            (TokenKind::Key(Key::Skip), 0, 4),
            (TokenKind::Key(Key::If), 5, 7),
            (TokenKind::Key(Key::Else), 8, 12),
            (TokenKind::Key(Key::While), 13, 18),
            (TokenKind::Key(Key::Choice), 19, 25),
            (TokenKind::Key(Key::Choose), 26, 32),
            (TokenKind::Key(Key::Or), 33, 35),
            (TokenKind::Key(Key::And), 36, 39),
            (TokenKind::Key(Key::Not), 40, 43),
            (TokenKind::Key(Key::True), 44, 48),
            (TokenKind::Key(Key::False), 49, 54),
            (TokenKind::Key(Key::Uniform), 55, 62),
            (TokenKind::Key(Key::Observe), 63, 70),
            (TokenKind::Key(Key::Return), 71, 77),
        ],
    ),
    (
        b":=~;{}()+-*/%=!=<<=>>=:|",
        &[
            (TokenKind::Sym(Sym::Assign), 0, 2),
            (TokenKind::Sym(Sym::Tilde), 2, 3),
            (TokenKind::Sym(Sym::Semicolon), 3, 4),
            (TokenKind::Sym(Sym::LeftBrace), 4, 5),
            (TokenKind::Sym(Sym::RightBrace), 5, 6),
            (TokenKind::Sym(Sym::LeftParen), 6, 7),
            (TokenKind::Sym(Sym::RightParen), 7, 8),
            (TokenKind::Sym(Sym::Plus), 8, 9),
            (TokenKind::Sym(Sym::Minus), 9, 10),
            (TokenKind::Sym(Sym::Star), 10, 11),
            (TokenKind::Sym(Sym::Slash), 11, 12),
            (TokenKind::Sym(Sym::Percent), 12, 13),
            (TokenKind::Sym(Sym::Equal), 13, 14),
            (TokenKind::Sym(Sym::NotEqual), 14, 16),
            (TokenKind::Sym(Sym::Less), 16, 17),
            (TokenKind::Sym(Sym::LessEqual), 17, 19),
            (TokenKind::Sym(Sym::Greater), 19, 20),
            (TokenKind::Sym(Sym::GreaterEqual), 20, 22),
            (TokenKind::Sym(Sym::Colon), 22, 23),
            (TokenKind::Sym(Sym::Bar), 23, 24),
        ],
    ),
];

fn has_tokens(alloc: Global, text: &[u8], wants: &[Spanned]) -> Result<bool, LexError> {
    let tokens = lex(alloc, text)?;
    Ok(
        tokens.len() == wants.len()
            && tokens.iter().zip(wants.iter()).all(|(token, want)| (
                token.kind,
                token.start,
                token.end,
            ) == *want),
    )
}

#[test]
fn tokens_have_their_kinds_and_spans(rt: HostRuntime) -> Result<(), Fail> {
    for (text, wants) in TOKENS {
        assert!(rt; has_tokens(rt.alloc(), text, wants)?, "tokens of {text:?}");
    }
    Ok(())
}

type Filled = (
    &'static [u8],
    u8,
    usize,
    &'static [u8],
    Result<usize, LexError>,
);

// The front of a text, a byte and how often it follows, the back, and how many tokens there are.
const ANSWERS: [Filled; 19] = [
    (b"", b' ', 65_537, b"", Err(LexError::TextTooLong)),
    (b"", b' ', 65_536, b"", Ok(0)),
    (b"?", b' ', 65_536, b"", Err(LexError::TextTooLong)),
    (
        b"x := 1 ? 2;",
        b' ',
        0,
        b"",
        Err(LexError::BadByte { at: 7 }),
    ),
    (b"!", b' ', 0, b"", Err(LexError::BadByte { at: 0 })),
    (b"a ! = b", b' ', 0, b"", Err(LexError::BadByte { at: 2 })),
    (b"a", 0x0b, 1, b"", Err(LexError::BadByte { at: 1 })),
    (b"#\n", 0xff, 1, b"", Err(LexError::BadByte { at: 2 })),
    (b"#", 0xff, 65_535, b"", Ok(0)),
    (
        b"return 9223372036854775808;",
        b' ',
        0,
        b"",
        Err(LexError::NumberTooWide { at: 7 }),
    ),
    (b"return 9223372036854775807;", b' ', 0, b"", Ok(3)),
    (b"", b'0', 65_535, b"7", Ok(1)),
    (
        b"",
        b'9',
        65_536,
        b"",
        Err(LexError::NumberTooWide { at: 0 }),
    ),
    (b"", b'a', 65, b"", Err(LexError::NameTooLong { at: 0 })),
    (b"", b'a', 64, b"", Ok(1)),
    (b"x ", b'_', 65, b" ?", Err(LexError::NameTooLong { at: 2 })),
    (b"? ", b'a', 65, b"", Err(LexError::BadByte { at: 0 })),
    (
        b"18446744073709551616 ",
        b'a',
        65,
        b"",
        Err(LexError::NumberTooWide { at: 0 }),
    ),
    (
        b"18446744073709551615",
        b'a',
        65,
        b"",
        Err(LexError::NumberTooWide { at: 0 }),
    ),
];

fn answers(alloc: Global, row: &Filled) -> Result<bool, AllocError> {
    let (front, byte, count, back, want) = *row;
    let text = filled(alloc, front, byte, count, back)?;
    Ok(lex(alloc, &text).map(|tokens| tokens.len()) == want)
}

#[test]
fn refusals_come_in_reading_order(rt: HostRuntime) -> Result<(), Fail> {
    for row in &ANSWERS {
        assert!(rt; answers(rt.alloc(), row)?, "of {row:?}");
    }
    Ok(())
}
