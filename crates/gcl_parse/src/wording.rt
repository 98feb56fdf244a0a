// From the tokens of a text to its words.

ghost use Rattle.std.specs.Prelude.{◌≡◌, ◌≤◌, ◌<◌, ◌-◌, ◌^◌, length, IfOk, OnOk};
ghost use Rattle.gcl_core.specs.text.Spans.{StandInOrder};
ghost use Rattle.gcl_core.specs.text.Words.{slice_of, with_token, word_of, names_of, words_of};
ghost use Rattle.gcl_core.specs.declared.rules.TheConstants.{LONGEST_TEXT};

use gcl_core::{Names, Token, TokenKind, Word};
use std::alloc::{AllocError, Global};

/// The words of a text and its names. A name's number is its place among them.
#[derive(Drop)]
pub struct Worded {
    pub words: Vec<Word>,
    pub names: Names,
}

// The word of a token. A new name is added to the names.
fn word(names: &mut Names, text: &[u8], token: Token) -> Result<Word, AllocError>
    requires room { length names.old < 2 ^ 32 - 1 }
    requires order { token.start ≤ token.end }
    requires within { token.end ≤ length text.now }
    ensures names { OnOk result (names.new ≡ with_token names.old token.kind (slice_of text.now token)) }
    ensures word { IfOk result (λ w. w ≡ word_of names.new text.now token) }
{
    match token.kind {
        TokenKind::Number(value) => Ok(Word::Number(value)),
        TokenKind::Name => {
            let name = &text[token.start as usize..token.end as usize];
            let number = names.add(name)?;
            Ok(Word::Name(number))
        }
        TokenKind::Key(key) => Ok(Word::Key(key)),
        TokenKind::Sym(sym) => Ok(Word::Sym(sym)),
    }
}

/// The words that these tokens of a text are, with the names in the order of their first appearance.
pub fn words(alloc: Global, text: &[u8], tokens: &[Token]) -> Result<Worded, AllocError>
    requires short { length text.now ≤ LONGEST_TEXT }
    requires order { StandInOrder 0 tokens.now (length text.now) }
    ensures names { IfOk result (λ r. r.names ≡ names_of text.now tokens.now) }
    ensures words { IfOk result (λ r. r.words.items ≡ words_of text.now tokens.now) }
{
    let mut names = Names::new(alloc);
    let mut words = Vec::new(alloc);
    for token in tokens {
        let word = word(&mut names, text, *token)?;
        words.push(word)?;
    }
    Ok(Worded { words, names })
}
