//! What was meant by a word of another language.

use crate::tokens::{begins_statement, is_number, is_set_at, kind_before, operates, word_of};
use gcl_core::{KEYWORDS, Token, TokenKind};

/// What is said of a function.
pub const NO_FUNCTIONS: &str = "there are no functions";

const NO_WORD_BEFORE: &str = "a variable is set without a word before it: x := 1;";

const DEMANDS: &str = "'observe' demands a truth";

const ONE_TEXT: &str = "a program is one text";

// Words that begin a statement in other languages, and what stands for them here.
const FOREIGN: [(&str, &str); 27] = [
    ("let", NO_WORD_BEFORE),
    ("var", NO_WORD_BEFORE),
    ("int", NO_WORD_BEFORE),
    ("const", NO_WORD_BEFORE),
    ("set", NO_WORD_BEFORE),
    (
        "for",
        "there is no 'for': a loop counts, while i < n { i := i + 1; }",
    ),
    (
        "repeat",
        "there is no 'repeat': a loop counts, while i < n { i := i + 1; }",
    ),
    ("loop", "there is no 'loop': write while true { .. }"),
    (
        "do",
        "there is no 'do': a loop tests first, while .. { .. }",
    ),
    ("elif", "there is no 'elif': write else { if .. { .. } }"),
    ("elsif", "there is no 'elsif': write else { if .. { .. } }"),
    (
        "elseif",
        "there is no 'elseif': write else { if .. { .. } }",
    ),
    ("print", "what a program prints is its result: return x;"),
    ("def", NO_FUNCTIONS),
    ("fn", NO_FUNCTIONS),
    ("function", NO_FUNCTIONS),
    ("import", ONE_TEXT),
    ("include", ONE_TEXT),
    ("assert", DEMANDS),
    ("assume", DEMANDS),
    ("condition", DEMANDS),
    (
        "flip",
        "a coin is c ~ uniform(2); or choice 1/2 { .. } or { .. }",
    ),
    ("sample", "a draw is x ~ uniform(n);"),
    (
        "break",
        "there is no 'break': the condition of a loop ends it",
    ),
    ("pass", "an empty statement is skip;"),
    (
        "switch",
        "there is no 'switch': write if .. { .. } else { .. }",
    ),
    (
        "match",
        "there is no 'match': write if .. { .. } else { .. }",
    ),
];

// Words that stand within a statement there.
const WITHIN: [(&str, &str); 6] = [
    ("then", "there is no 'then': a block follows the condition"),
    ("do", "there is no 'do': a block follows the condition"),
    ("mod", "'%' is the remainder"),
    ("div", "'/' divides"),
    ("xor", "there is no 'xor': '!=' compares numbers"),
    (
        "in",
        "there is no 'in': a loop counts, while i < n { i := i + 1; }",
    ),
];

const SMALL_LETTERS: &str = "reserved names have small letters";

const DIGITS: &str = "a number has digits from 0 to 9 alone";

// What stands beside a word in a table.
fn beside(table: &[(&str, &'static str)], word: &str) -> Option<&'static str> {
    for (name, said) in table {
        if *name == word {
            return Some(said);
        }
    }
    None
}

// The word is a reserved name, but for its case.
fn is_reserved_in_case(word: &str) -> bool {
    for (name, _) in &KEYWORDS {
        if *name != word && name.eq_ignore_ascii_case(word) {
            return true;
        }
    }
    false
}

// The word of the token so many before this place, where it is a name.
fn name_before<'t>(text: &'t [u8], tokens: &[Token], index: usize, count: usize) -> &'t str {
    let Some(at) = index.checked_sub(count) else {
        return "";
    };
    match tokens.get(at) {
        Some(token) if token.kind == TokenKind::Name => word_of(text, token),
        _ => "",
    }
}

// What is said of a word with which the statement of another language begins.
fn of_first_word(text: &[u8], tokens: &[Token], index: usize) -> Option<&'static str> {
    let first = name_before(text, tokens, index, 1);
    let is_first = begins_statement(tokens, index.saturating_sub(1));
    if !is_first || operates(kind_before(tokens, index, 0)) {
        None
    } else if is_reserved_in_case(first) {
        Some(SMALL_LETTERS)
    } else {
        beside(&FOREIGN, first)
    }
}

// The word at this place begins where a number ends.
fn touches_number(tokens: &[Token], index: usize) -> bool {
    match (tokens.get(index.saturating_sub(1)), tokens.get(index)) {
        (Some(number), Some(name)) => {
            is_number(Some(number.kind)) && number.end == name.start && index > 0
        }
        _ => false,
    }
}

/// What is said of the words around this place.
pub fn of_words(text: &[u8], tokens: &[Token], index: usize) -> Option<&'static str> {
    if let Some(said) = of_first_word(text, tokens, index) {
        return Some(said);
    }
    let word = name_before(text, tokens, index, 0);
    if word.is_empty() || is_set_at(tokens, index) {
        None
    } else if touches_number(tokens, index) {
        Some(DIGITS)
    } else if is_reserved_in_case(word) {
        Some(SMALL_LETTERS)
    } else {
        beside(&WITHIN, word)
    }
}
