//! What was meant by a byte with which nothing begins.

use crate::foreign::NO_FUNCTIONS;
use crate::missing::BETWEEN_ARMS;
use crate::tokens::{is_sym, kind_before};
use gcl_core::{Key, Sym, Token, TokenKind};

const NO_TEXTS: &str = "there are no texts: a value is a whole number";

const NO_LISTS: &str = "there are no lists: each number has a variable of its own";

// Its mark, or each second byte is 0.
const UTF_16: &str = "the text is in UTF-16: save it as UTF-8";

const UNIFORM_OF_ONE: &str =
    "uniform(n) takes one number, and draws 0 to n - 1: for 1 to 6 draw uniform(6), and add 1";

/// What is said of a name behind `~`.
pub const BEHIND_TILDE: &str =
    "behind '~' stands uniform(n) alone; a coin is choice 1/2 { .. } or { .. }";

const OTHER_LETTERS: &str =
    "a name has letters from a to z and A to Z, digits and _; other letters stand in comments alone";

// What begins with such a byte, and what is said of it: the first row that fits.
const BEGINNINGS: [(&str, &str); 33] = [
    (
        "\u{feff}",
        "a byte order mark stands here: save the text as UTF-8 without one",
    ),
    ("\0", "a byte 0 stands here, which is in no text"),
    ("&", "'and' joins two truths"),
    ("!", "'not' turns a truth round, and '!=' compares"),
    ("^", "there is no power: write x * x"),
    (
        "..",
        "there is no range: a loop counts, while i < n { i := i + 1; }",
    ),
    (
        ".",
        "there are whole numbers alone: a weight of 0.5 is 5/10",
    ),
    (
        ",",
        "nothing is listed: each variable is set by a statement of its own",
    ),
    ("\"", NO_TEXTS),
    ("'", NO_TEXTS),
    ("\u{201c}", NO_TEXTS),
    ("\u{201d}", NO_TEXTS),
    ("\u{201e}", NO_TEXTS),
    ("\u{2018}", NO_TEXTS),
    ("\u{2019}", NO_TEXTS),
    ("[", NO_LISTS),
    ("]", NO_LISTS),
    ("?", "there is no '?': write if .. { .. } else { .. }"),
    ("$", "a name begins with a letter or _"),
    ("@", "a name begins with a letter or _"),
    ("\u{a0}", "a no-break space stands here: write a plain one"),
    ("\u{2003}", "a wide space stands here: write a plain one"),
    ("\u{200b}", "a space of no width stands here: leave it out"),
    ("\u{2260}", "write '!='"),
    ("\u{2264}", "write '<='"),
    ("\u{2265}", "write '>='"),
    ("\u{d7}", "write '*'"),
    ("\u{b7}", "write '*'"),
    ("\u{f7}", "write '/'"),
    ("\u{2212}", "write '-'"),
    ("\u{2013}", "write '-'"),
    ("\u{2190}", "':=' sets a variable"),
    (
        "\\",
        "a statement may go on in the next line without a mark",
    ),
];

// What is said by the tokens before the byte.
fn told_by_tokens(tokens: &[Token], byte: u8) -> Option<&'static str> {
    let end = tokens.len();
    if byte != b',' {
        return None;
    }
    if is_sym(kind_before(tokens, end, 1), Sym::RightBrace) {
        return Some(BETWEEN_ARMS);
    }
    if !is_sym(kind_before(tokens, end, 2), Sym::LeftParen) {
        return None;
    }
    match (kind_before(tokens, end, 4), kind_before(tokens, end, 3)) {
        (_, Some(TokenKind::Key(Key::Uniform))) => Some(UNIFORM_OF_ONE),
        (Some(TokenKind::Sym(Sym::Tilde)), Some(TokenKind::Name)) => Some(BEHIND_TILDE),
        (_, Some(TokenKind::Name)) => Some(NO_FUNCTIONS),
        _ => None,
    }
}

/// What is said of the bytes of a text from the one with which nothing begins, behind these tokens.
pub fn bad_bytes(rest: &[u8], tokens: &[Token]) -> Option<&'static str> {
    let byte = *rest.first()?;
    if let Some(said) = told_by_tokens(tokens, byte) {
        return Some(said);
    }
    if matches!(rest, [0xff, 0xfe, ..] | [0xfe, 0xff, ..] | [0, _, 0, ..]) {
        return Some(UTF_16);
    }
    for (beginning, said) in &BEGINNINGS {
        if rest.starts_with(beginning.as_bytes()) {
            return Some(said);
        }
    }
    if byte >= 0x80 {
        Some(OTHER_LETTERS)
    } else {
        None
    }
}
