//! What was meant by a token that is refused, as those around it tell.

use crate::bytes::BEHIND_TILDE;
use crate::foreign::{NO_FUNCTIONS, of_words};
use crate::tokens::{
    Kind, begins_statement, compares, ends_operand, is_key, is_number, is_sym, kind_before,
    operates,
};
use gcl_core::{Key, MOST_ARMS, Sym, Token, TokenKind};

const ONE_SLASH: &str = "one '/' divides, and a comment begins with '#'";

// Two tokens of which the second is refused, and what would be right.
const PAIRS: [(TokenKind, TokenKind, &str); 8] = [
    (
        TokenKind::Sym(Sym::Equal),
        TokenKind::Sym(Sym::Equal),
        "one '=' compares",
    ),
    (
        TokenKind::Sym(Sym::Equal),
        TokenKind::Sym(Sym::Greater),
        "write '>='",
    ),
    (
        TokenKind::Sym(Sym::Equal),
        TokenKind::Sym(Sym::Less),
        "write '<='",
    ),
    (
        TokenKind::Sym(Sym::Less),
        TokenKind::Sym(Sym::Greater),
        "'!=' tells that two numbers differ",
    ),
    (
        TokenKind::Sym(Sym::NotEqual),
        TokenKind::Sym(Sym::Equal),
        "one '!=' compares",
    ),
    (
        TokenKind::Sym(Sym::Slash),
        TokenKind::Sym(Sym::Slash),
        ONE_SLASH,
    ),
    (
        TokenKind::Sym(Sym::Star),
        TokenKind::Sym(Sym::Star),
        "there is no power: write x * x",
    ),
    (
        TokenKind::Key(Key::Else),
        TokenKind::Key(Key::If),
        "there is no 'else if': write else { if .. { .. } }",
    ),
];

const MANY_ARMS: &str = "a choose has at most 16 arms";

const WEIGHT: &str =
    "a weight is two numbers, as choice 1/2: no expression, and no brackets around it";

const ARMS: &str = "the arms stand in one block: choose { 3: { .. } | 1: { .. } }";

const PART: &str = "a part is one whole number, and ':' behind it: 3: { .. } | 1: { .. }";

const NO_GROUPS: &str = "comparisons do not group: for 1 < x < 3 write 1 < x and x < 3";

const COMMENT: &str = "a comment begins with '#'";

const SETS: &str = "':=' sets a variable, as x := x + 1;";

const DRAW_ALONE: &str = "a draw is a statement of its own: x ~ uniform(n);";

const IN_BRACKETS: &str = "the number stands in brackets: uniform(6)";

const BEHIND_DRAW: &str = "a draw is a statement of its own: work with x behind x ~ uniform(n);";

const NO_VALUE: &str = "a statement has no value: set a variable in its blocks";

const NO_BLOCK: &str =
    "there is no block of its own: it stands behind if, else, while, choice or 'or'";

const NO_SEMICOLON: &str = "no ';' stands here: it ends a statement, and none is begun";

const BAR: &str = "'|' stands between the arms of a choose; 'or' joins two truths";

const BRACES: &str = "a block stands in braces: { .. }";

const SETS_ALONE: &str = "':=' sets a variable in a statement of its own, and '=' compares";

fn begins_block_statement(kind: Kind) -> bool {
    match kind {
        Some(TokenKind::Key(key)) => matches!(
            key,
            Key::Skip
                | Key::If
                | Key::While
                | Key::Choice
                | Key::Choose
                | Key::Observe
                | Key::Return
        ),
        _ => false,
    }
}

// The first token of the statement that the token before this place is of.
fn statement_of(tokens: &[Token], index: usize) -> usize {
    let mut first: usize = 0;
    for i in 0..index.saturating_add(1) {
        if begins_statement(tokens, i) {
            first = i;
        }
    }
    first
}

// The statement that the token before this place is of takes a block.
fn takes_block(tokens: &[Token], index: usize) -> bool {
    let first = kind_before(tokens, statement_of(tokens, index), 0);
    matches!(
        first,
        Some(TokenKind::Key(Key::If | Key::While | Key::Else))
    )
}

// How many of the tokens before this place stand between two arms.
fn bars_before(tokens: &[Token], index: usize) -> usize {
    let mut count: usize = 0;
    for token in tokens.iter().take(index) {
        if token.kind == TokenKind::Sym(Sym::Bar) {
            count = count.saturating_add(1);
        }
    }
    count
}

// What is said of a weight, or of an arm.
fn of_choices(tokens: &[Token], index: usize) -> Option<&'static str> {
    let this = kind_before(tokens, index, 0);
    let (one, two, three) = (
        kind_before(tokens, index, 1),
        kind_before(tokens, index, 2),
        kind_before(tokens, index, 3),
    );
    if (is_key(one, Key::Choice) && !is_number(this))
        || (is_key(two, Key::Choice) && !is_sym(this, Sym::Slash))
        || (is_key(three, Key::Choice) && !is_number(this))
    {
        return Some(WEIGHT);
    }
    if is_key(one, Key::Choose) {
        return Some(ARMS);
    }
    if is_sym(one, Sym::RightBrace)
        && is_sym(this, Sym::Bar)
        && bars_before(tokens, index) >= MOST_ARMS - 1
    {
        return Some(MANY_ARMS);
    }
    let begins_arm = is_sym(one, Sym::Bar)
        || (is_sym(one, Sym::LeftBrace) && is_key(two, Key::Choose));
    let is_behind_part = is_sym(two, Sym::Bar)
        || (is_sym(two, Sym::LeftBrace) && is_key(three, Key::Choose));
    if begins_arm || (is_behind_part && is_number(one)) {
        return Some(PART);
    }
    None
}

// What is said of a draw.
fn of_draws(tokens: &[Token], index: usize) -> Option<&'static str> {
    let (this, before) = (kind_before(tokens, index, 0), kind_before(tokens, index, 1));
    if is_sym(before, Sym::Tilde) {
        return Some(BEHIND_TILDE);
    }
    if is_key(before, Key::Uniform) {
        return Some(IN_BRACKETS);
    }
    if is_key(this, Key::Uniform) {
        return Some(DRAW_ALONE);
    }
    let first = statement_of(tokens, index);
    let draws = is_sym(kind_before(tokens, first.saturating_add(1), 0), Sym::Tilde);
    if draws && operates(this) && is_sym(before, Sym::RightParen) {
        return Some(BEHIND_DRAW);
    }
    None
}

// What is said of a token with which a statement begins, or of the one behind.
fn of_beginnings(tokens: &[Token], index: usize) -> Option<&'static str> {
    let (this, before) = (kind_before(tokens, index, 0), kind_before(tokens, index, 1));
    if begins_statement(tokens, index) {
        return match this {
            Some(TokenKind::Sym(Sym::Slash | Sym::Minus)) => Some(COMMENT),
            Some(TokenKind::Sym(Sym::LeftBrace)) => Some(NO_BLOCK),
            Some(TokenKind::Sym(Sym::Semicolon)) => Some(NO_SEMICOLON),
            _ => None,
        };
    }
    let is_second = begins_statement(tokens, index.saturating_sub(1));
    if is_second && before == Some(TokenKind::Name) {
        if is_sym(this, Sym::Equal) {
            return Some("':=' sets a variable, '=' compares");
        }
        if operates(this) || is_sym(this, Sym::Colon) {
            return Some(SETS);
        }
    }
    None
}

// What is said of a token within an expression.
fn of_expressions(tokens: &[Token], index: usize) -> Option<&'static str> {
    let (this, before) = (kind_before(tokens, index, 0), kind_before(tokens, index, 1));
    if compares(this) && ends_operand(before) {
        return Some(NO_GROUPS);
    }
    if is_sym(this, Sym::LeftParen) && before == Some(TokenKind::Name) {
        return Some(NO_FUNCTIONS);
    }
    if is_sym(this, Sym::Colon) && takes_block(tokens, index) {
        return Some(BRACES);
    }
    if is_sym(this, Sym::Bar) {
        return Some(BAR);
    }
    if is_sym(this, Sym::Assign) && ends_operand(before) {
        return Some(SETS_ALONE);
    }
    let wants_operand = operates(before)
        || is_sym(before, Sym::Assign)
        || is_key(before, Key::Return);
    if wants_operand && begins_block_statement(this) {
        return Some(NO_VALUE);
    }
    None
}

/// What is said of the token at this place, which is refused, if those around it tell.
pub fn confused(text: &[u8], tokens: &[Token], index: usize) -> Option<&'static str> {
    let (this, before) = (kind_before(tokens, index, 0), kind_before(tokens, index, 1));
    for (first, second, said) in &PAIRS {
        if before == Some(*first) && this == Some(*second) {
            return Some(said);
        }
    }
    if let Some(said) = of_words(text, tokens, index) {
        return Some(said);
    }
    if let Some(said) = of_choices(tokens, index) {
        return Some(said);
    }
    if let Some(said) = of_draws(tokens, index) {
        return Some(said);
    }
    if let Some(said) = of_beginnings(tokens, index) {
        return Some(said);
    }
    of_expressions(tokens, index)
}

/// What is said where nothing else is known of the token at this place.
pub fn wanted_here(tokens: &[Token], index: usize) -> &'static str {
    let before = kind_before(tokens, index, 1);
    if before == Some(TokenKind::Name) && begins_statement(tokens, index.saturating_sub(1)) {
        SETS
    } else if is_key(before, Key::Else) {
        BRACES
    } else if ends_operand(before) {
        "an operator, or the end of the expression, is wanted here"
    } else if begins_statement(tokens, index) {
        "no statement begins so: it begins with a name, or with skip, if, while, choice, choose or observe"
    } else {
        "a number, a name or a bracket is wanted here"
    }
}
